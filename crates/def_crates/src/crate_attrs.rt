//! What the attributes of a crate's root file say.
ghost use Rattle.std.specs.Prelude.{◌≡◌, ◌||◌, [], option_and_then, option_map, unwrap_or, OnOk};
ghost use Rattle.std.specs.List.{list_any};
ghost use Rattle.item_tree.specs.Attrs.{attrs_in, text_of, tokens_of};
ghost use Rattle.item_tree.specs.Lists.{only_of_list};
ghost use Rattle.def_modules.specs.Maps.{crate_state};
ghost use Rattle.def_rules.specs.Crates as crates;

use def_map::DefMapCrateData;
use item_tree::{Attr, ItemTree, ModPath, Name, SyntaxContext, TopSubtree, sym};
use std::alloc::AllocError;

/// Whether a crate is one of procedural macros, as is known or as an attribute says.
pub fn is_proc_macro_with(known: bool, attrs: &[Attr]) -> bool
    ensures { result ≡ (known || list_any crates.says_proc_macro attrs.now) }
{
    known || any_says_proc_macro(attrs)
}

/// Whether one of these attributes says that a crate is one of procedural macros.
fn any_says_proc_macro(attrs: &[Attr]) -> bool
    ensures { result ≡ list_any crates.says_proc_macro attrs.now }
{
    'attrs: for attr in attrs {
        if says_proc_macro(attr) {
            return true;
        }
    }
    false
}

/// Whether an attribute says that a crate is one of procedural macros.
fn says_proc_macro(attr: &Attr) -> bool
    ensures { result ≡ crates.says_proc_macro attr.now }
{
    match attr.text() {
        Some(text) => attr.has_key(sym::CRATE_TYPE) && text == "proc-macro",
        None => false,
    }
}

/// Sets what these attributes say of the crate, one after the other.
pub(crate) fn set_attrs(krate: &mut DefMapCrateData, attrs: &[Attr]) -> Result<(), AllocError>
    ensures { OnOk result (crate_state krate.new ≡ crates.after_attrs attrs.now (crate_state krate.old)) }
{
    'attrs: for attr in attrs {
        set_attr(krate, attr)?;
    }
    Ok(())
}

/// Sets what an attribute of the root file says of the crate.
fn set_attr(krate: &mut DefMapCrateData, attr: &Attr) -> Result<(), AllocError>
    ensures { OnOk result (crate_state krate.new ≡ crates.after_attr attr.now (crate_state krate.old)) }
{
    if attr.has_key(sym::RECURSION_LIMIT) {
        set_limit(krate, stated_limit(attr));
        return Ok(());
    }
    if attr.has_key(sym::NO_CORE) {
        krate.no_core = true;
        return Ok(());
    }
    if attr.has_key(sym::NO_STD) {
        krate.no_std = true;
        return Ok(());
    }
    if attr.has_key(sym::RUSTC_COHERENCE_IS_CORE) {
        krate.rustc_coherence_is_core = true;
        return Ok(());
    }
    if attr.has_key(sym::FEATURE) {
        enable_features(krate, listed_paths(attr))?;
        return Ok(());
    }
    if attr.has_key(sym::REGISTER_TOOL) {
        register_tool(krate, stated_tool(attr))?;
        return Ok(());
    }
    Ok(())
}

/// Sets how deep expansions may nest, where a limit is stated.
fn set_limit(krate: &mut DefMapCrateData, limit: Option<u32>)
    ensures { crate_state krate.new ≡ crates.with_limit limit (crate_state krate.old) }
{
    if let Some(limit) = limit {
        krate.recursion_limit = Some(limit);
    }
}

/// The limit that the text of an attribute states, if it is a number of 32 bits.
fn stated_limit(attr: &Attr) -> Option<u32>
    ensures { result ≡ option_and_then crates.read_u32 (text_of attr.now) }
{
    match attr.text() {
        Some(text) => number(text),
        None => None,
    }
}

/// The number of 32 bits that a text reads as.
fn number(text: &str) -> Option<u32>
    ensures { result ≡ crates.read_u32 text.now }
{
    match text.parse::<u32>() {
        Ok(number) => Some(number),
        Err(_) => None,
    }
}

/// The paths that an attribute lists.
fn listed_paths(attr: &Attr) -> &[(ModPath, SyntaxContext)]
    ensures { result.now ≡ unwrap_or attr.now.paths [] }
{
    match &attr.paths {
        Some(paths) => paths.as_slice(),
        None => &[],
    }
}

/// Enables each feature that is listed as a path of one segment.
fn enable_features(
    krate: &mut DefMapCrateData,
    listed: &[(ModPath, SyntaxContext)],
) -> Result<(), AllocError>
    ensures { OnOk result (crate_state krate.new ≡ crates.with_features listed.now (crate_state krate.old)) }
{
    'listed: for entry in listed {
        enable_feature(krate, &entry.0)?;
    }
    Ok(())
}

/// Enables the feature that a path of one segment names.
fn enable_feature(krate: &mut DefMapCrateData, path: &ModPath) -> Result<(), AllocError>
    ensures { OnOk result (let k = crate_state krate.old in
        crate_state krate.new ≡ record k { features = crates.with_named (only_of_list path.now.segments) k.features }) }
{
    match path.segments.as_slice() {
        [name] => {
            krate.enable_feature(*name)?;
            Ok(())
        }
        _ => Ok(()),
    }
}

/// Registers a tool, if there is one.
fn register_tool(krate: &mut DefMapCrateData, tool: Option<Name>) -> Result<(), AllocError>
    ensures { OnOk result (crate_state krate.new ≡ crates.with_tool tool (crate_state krate.old)) }
{
    if let Some(tool) = tool {
        krate.register_tool(tool)?;
    }
    Ok(())
}

/// The identifier that stands alone in an attribute's tokens.
fn stated_tool(attr: &Attr) -> Option<Name>
    ensures { result ≡ option_and_then crates.lone_ident (tokens_of attr.now) }
{
    match attr.tokens() {
        Some(tokens) => lone_ident(tokens),
        None => None,
    }
}

/// The identifier that a token tree is, where it is one element.
fn lone_ident(tokens: &TopSubtree) -> Option<Name>
    ensures { result ≡ crates.lone_ident tokens.now }
{
    let mut elements = tokens.iter();
    match (elements.next(), elements.next()) {
        (Some(element), None) => element.ident(),
        _ => None,
    }
}

/// The attributes of a whole tree. A tree that is not there has none.
pub fn top_attrs<'a>(tree: Option<&'a ItemTree>) -> &'a [Attr]
    ensures { result.now ≡ unwrap_or (option_map (λ t. (attrs_in t.now.attrs).list) tree.entry) [] }
{
    match tree {
        Some(tree) => tree.top_level_attrs().attrs().as_slice(),
        None => &[],
    }
}
