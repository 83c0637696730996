//! Readers of the attributes that declare procedural macros.
ghost use Rattle.std.specs.Prelude.{◌≡◌, IfOk, option_map};
ghost use Rattle.item_tree.specs.TokenElements.{seen};
ghost use Rattle.item_tree.specs.TokenTrees.{idents, element_ident, elements};
ghost use Rattle.def_readings.specs.DeriveNames.{is_comma, is_word, name_and_helpers};
ghost use Rattle.def_readings.specs.ProcMacros.{derive_declared, proc_macro_of};
ghost use Rattle.def_parts.specs.ProcMacros.{read_as, decl_of};

use crate::proc_macro::{ProcMacroDef, ProcMacroKind};
use item_tree::sym::{ATTRIBUTES, PROC_MACRO, PROC_MACRO_ATTRIBUTE, PROC_MACRO_DERIVE};
use item_tree::{Attrs, Leaf, Name, TopSubtree, TtElement, TtIter};
use std::alloc::{AllocError, Global};

/// Whether an element is a comma.
fn is_comma(element: &TtElement<'_>) -> bool
    ensures { result ≡ is_comma (seen element.now) }
{
    match element {
        TtElement::Leaf(Leaf::Punct(c)) => *c == ',',
        _ => false,
    }
}

/// Whether an element is this identifier.
fn is_word(element: &TtElement<'_>, word: Name) -> bool
    ensures { result ≡ is_word (element_ident (seen element.now)) word }
{
    match element.ident() {
        Some(name) => name == word,
        None => false,
    }
}

/// The identifiers directly in token trees.
fn idents(alloc: Global, mut trees: TtIter<'_>) -> Result<Vec<Name>, AllocError>
    ensures { IfOk result (λ names. names.items ≡ idents trees.entry) }
{
    let mut names = Vec::new(alloc);
    while let Some(element) = trees.next() {
        if let Some(name) = element.ident() {
            names.push(name)?;
        }
    }
    Ok(names)
}

/// The name and the helper attributes in `#[proc_macro_derive(Trait, attributes(a, b))]`, which
/// `#[rustc_builtin_macro(..)]` has too, by its token tree; none where that is of another shape.
pub fn parse_macro_name_and_helper_attrs(
    alloc: Global,
    tt: &TopSubtree,
) -> Result<Option<(Name, Vec<Name>)>, AllocError>
    ensures { IfOk result
        (λ found. option_map read_as found ≡ name_and_helpers (elements tt.now)) }
{
    let mut trees = tt.iter();
    let Some(name) = trees.next() else {
        return Ok(None);
    };
    let Some(name) = name.ident() else {
        return Ok(None);
    };
    let Some(comma) = trees.next() else {
        return Ok(Some((name, Vec::new(alloc))));
    };
    let (Some(word), Some(helpers), None) = (trees.next(), trees.next(), trees.next()) else {
        return Ok(None);
    };
    if !is_comma(&comma) || !is_word(&word, ATTRIBUTES) {
        return Ok(None);
    }
    let Some(helpers) = helpers.subtree() else {
        return Ok(None);
    };
    Ok(Some((name, idents(alloc, helpers)?)))
}

/// The name and the helper attributes of the first `#[proc_macro_derive(..)]` with a token tree.
pub fn parse_proc_macro_derive(
    alloc: Global,
    attrs: &Attrs,
) -> Result<Option<(Name, Vec<Name>)>, AllocError>
    ensures { IfOk result (λ found. option_map read_as found ≡ derive_declared attrs.now.list) }
{
    match attrs.by_key(PROC_MACRO_DERIVE).tt_values().next() {
        Some(tt) => parse_macro_name_and_helper_attrs(alloc, tt),
        None => Ok(None),
    }
}

/// The procedural macro that a function of this name declares by its attributes, if there is one.
pub fn parse_proc_macro_decl(
    alloc: Global,
    attrs: &Attrs,
    func_name: Name,
) -> Result<Option<ProcMacroDef>, AllocError>
    ensures { IfOk result
        (λ def. option_map decl_of def ≡ proc_macro_of attrs.now.list func_name) }
{
    if attrs.by_key(PROC_MACRO).exists() {
        return Ok(Some(ProcMacroDef {
            name: func_name,
            kind: ProcMacroKind::Bang,
        }));
    }
    if attrs.by_key(PROC_MACRO_ATTRIBUTE).exists() {
        return Ok(Some(ProcMacroDef {
            name: func_name,
            kind: ProcMacroKind::Attr,
        }));
    }
    if !attrs.by_key(PROC_MACRO_DERIVE).exists() {
        return Ok(None);
    }
    let (name, helpers) = match parse_proc_macro_derive(alloc, attrs)? {
        Some(read) => read,
        None => (func_name, Vec::new(alloc)),
    };
    Ok(Some(ProcMacroDef {
        name,
        kind: ProcMacroKind::Derive { helpers },
    }))
}
