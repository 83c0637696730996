//! The scripted workspaces that have names.

ghost use Rattle.std.specs.Prelude.{◌≡◌, map, is_some, bytes_eq};
ghost use Rattle.std.specs.List.{list_any};
ghost use Rattle.def_scripted.specs.Vectors.{is_vector, vector_names};

use crate::texts::{
    ATTRS, CHAIN, CIRCULAR, CYCLE, EMPTY, EXCUSED, FALLBACK, FIELDS, FOLLOW, GLOB, LIST,
    MODULE_MACRO, PARTIAL, PLAIN, PRIVATE, PROCMACRO, ROUNDS, TARGETS, TEXTUAL_USE, UNDERSCORE,
};

/// The names, in byte order.
static NAMES: [&str; 20] = [
    "attrs",
    "chain",
    "circular",
    "cycle",
    "empty",
    "excused",
    "fallback",
    "fields",
    "follow",
    "glob",
    "list",
    "module-macro",
    "partial",
    "plain",
    "private",
    "procmacro",
    "rounds",
    "targets",
    "textual-use",
    "underscore",
];

/// The text of the workspace whose name stands at a place. Each is a value of its own, since what one
/// function reads of a table of all of them costs the prover much more.
fn text_at(place: usize) -> &'static str {
    match place {
        0 => ATTRS,
        1 => CHAIN,
        2 => CIRCULAR,
        3 => CYCLE,
        4 => EMPTY,
        5 => EXCUSED,
        6 => FALLBACK,
        7 => FIELDS,
        8 => FOLLOW,
        9 => GLOB,
        10 => LIST,
        11 => MODULE_MACRO,
        12 => PARTIAL,
        13 => PLAIN,
        14 => PRIVATE,
        15 => PROCMACRO,
        16 => ROUNDS,
        17 => TARGETS,
        18 => TEXTUAL_USE,
        19 => UNDERSCORE,
        _ => "",
    }
}

/// The names of all vectors, in byte order.
pub fn vectors() -> &'static [&'static str]
    ensures { map (λ name. name.now) result.now ≡ vector_names }
{
    NAMES.as_slice()
}

/// The text of the first of some vectors that has this name, as rows are written.
fn first_named(names: &[&'static str], name: &str) -> Option<&'static str>
    ensures { is_some result ≡ list_any (λ known. bytes_eq known.now name.now) names.now }
{
    for (place, known) in names.iter().enumerate() {
        if *known == name {
            return Some(text_at(place));
        }
    }
    None
}

/// The text of the vector of a name, as rows are written.
pub fn find(name: &str) -> Option<&'static str>
    ensures { is_some result ≡ is_vector name.now }
{
    first_named(vectors(), name)
}
