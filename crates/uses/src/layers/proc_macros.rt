//! What a derive declares, by the arguments of its attribute.

use crate::layers::token_trees::trees_of;
use def_parts::parse_macro_name_and_helper_attrs;
use item_tree::Name;
use std::alloc::{AllocError, Global};
use std::test::Fail;

/// The identifiers of the letters t, f and g.
const T: Name = Name(116);

const F: Name = Name(102);

const G: Name = Name(103);

/// Arguments, in which a star is the word `attributes`, and what they declare: a name, and the
/// names of the helpers.
static ROWS: [(&str, Option<(Name, &[Name])>); 3] = [
    ("t", Some((T, &[]))),
    ("t,*(f,g)", Some((T, &[F, G]))),
    ("t,", None),
];

/// Whether this is declared.
fn is_read_as(found: &Option<(Name, Vec<Name>)>, want: &Option<(Name, &[Name])>) -> bool {
    match (found, want) {
        (Some((name, helpers)), Some((trait_name, names))) => {
            name == trait_name && helpers.as_slice() == *names
        }
        (None, None) => true,
        _ => false,
    }
}

/// Whether arguments declare this.
fn declare(alloc: Global, text: &str, want: &Option<(Name, &[Name])>) -> Result<bool, AllocError> {
    match trees_of(alloc, text)? {
        Some(tokens) => Ok(is_read_as(&parse_macro_name_and_helper_attrs(alloc, &tokens)?, want)),
        None => Ok(false),
    }
}

#[test]
fn derive_arguments_are_read(rt: HostRuntime) -> Result<(), Fail> {
    for (text, want) in &ROWS {
        assert!(rt; declare(rt.alloc(), text, want)?, "{text}");
    }
    Ok(())
}
