//! Attributes of items: which one an item waits for, and what its macro does with the item.
ghost use Rattle.std.specs.Prelude.{◌≡◌, map, option_map};
ghost use Rattle.def_attrs.specs.ItemAttrs.{active_of, skipped_of};
ghost use Rattle.def_attrs.specs.Shown.{attr_use_of};
ghost use Rattle.def_calls.specs.Shown.{macro_directive_of, written_attr_of};
ghost use Rattle.def_parts.specs.Sites.{site_of};
ghost use Rattle.def_modules.specs.Maps.{helper_state, map_state};
ghost use Rattle.def_rules.specs.Attributes as rules;
ghost use Rattle.def_rules.specs.Attributes.{with_active};
ghost use Rattle.def_rules.specs.State.{State};

use crate::item_attrs::ItemAttrs;
use def_calls::{MacroDirective, WrittenAttr};
use def_ids::{BuiltinAttr, CustomProcMacroExpander};
use def_interner::{MacroDefId, MacroDefKind};
use def_map::{AttrCallQuery, DeriveHelper, MapData, SourceDatabase};
use def_parts::Site;
use def_rules::ExpandErrorKind;
use item_tree::{
    Attr, AttrId, AttrsAfter, Crate, FileAstId, InFile, ItemNode, MacroCallId, ModItemId, Name,
};
use macro_calls::{expand_error, is_builtin_or_registered_attr};

/// What the macro of an attribute does with the item.
#[derive(Clone, Copy)]
pub enum AttrUse {
    /// Nothing: the item is walked without the attribute.
    PassesOver,
    /// Its list of derives is read, and the item is walked without the attribute.
    ReadsDerives,
    /// It is called, and its expansion stands in the place of the item.
    ReplacesItem,
    /// Nothing expands it: that is reported, and the item is walked without the attribute.
    HasNoExpander(ExpandErrorKind),
}

/// The attribute whose macro an item waits for, with its number: the first that is neither builtin
/// nor a tool's, behind the one that was passed over. At the greatest depth there is none.
#[inline(always)]
pub fn awaited_attr<'a, D: SourceDatabase>(
    db: &D,
    def_map: &MapData,
    item_attrs: &ItemAttrs,
    site: &Site,
    id: ModItemId,
    node: &'a ItemNode,
) -> Option<(AttrId, &'a Attr)>
    ensures { (s : State) → let now = record s { map = map_state def_map.now; skipped = skipped_of item_attrs.now } in
        option_map (λ a. (a.0, a.1.now)) result ≡ rules.awaited_attr (D.oracle db.now) now (site_of site.now) id node.now }
{
    let Some(written) = &node.attrs else {
        return None;
    };
    if site.depth == u32::MAX {
        return None;
    }
    let skipped = item_attrs.skipped(site.tree_id.file, id);
    let tools = def_map.krate.registered_tools.as_slice();
    first_unknown(db, tools, written.attrs().iter_after(skipped))
}

/// The first of these attributes that is neither builtin nor a tool's, with its number.
#[inline(never)]
fn first_unknown<'a, D: SourceDatabase>(
    db: &D,
    tools: &[Name],
    attrs: AttrsAfter<'a>,
) -> Option<(AttrId, &'a Attr)>
    ensures { option_map (λ a. (a.0, a.1.now)) result ≡ rules.first_unknown (D.oracle db.now) tools.now attrs.entry }
{
    let mut rest = attrs;
    'attrs: while let Some((id, attr)) = rest.next() {
        if !is_builtin_or_registered_attr(db, tools, &attr.path) {
            return Some((id, attr));
        }
    }
    None
}

/// Whether an attribute of the item at a position is a helper of one of its derives.
pub fn is_helper(def_map: &MapData, position: InFile<FileAstId>, attr: &Attr) -> bool
    ensures { (s : State) → result ≡ rules.is_helper (record s { map = map_state def_map.now }) position attr.now }
{
    let Some(name) = attr.path.as_ident() else {
        return false;
    };
    match def_map.derive_helpers.get(&position) {
        Some(helpers) => helps(helpers.as_slice(), name),
        None => false,
    }
}

/// Whether one of these helpers has this name.
fn helps(helpers: &[DeriveHelper], name: Name) -> bool
    ensures { result ≡ rules.helps (map helper_state helpers.now) name }
{
    'helpers: for helper in helpers {
        if helper.name == name {
            return true;
        }
    }
    false
}

/// What a macro does with the item of its attribute.
pub fn attr_use<D: SourceDatabase>(db: &D, krate: Crate, found: MacroDefId) -> AttrUse
    ensures { attr_use_of result ≡ rules.attr_use (D.oracle db.now) krate found.kind }
{
    match found.kind {
        MacroDefKind::BuiltInAttr(builtin) => builtin_use(db, krate, builtin),
        MacroDefKind::ProcMacro(expander, _) => expander_use(expander),
        _ => AttrUse::ReplacesItem,
    }
}

/// What a builtin macro does with the item of its attribute.
fn builtin_use<D: SourceDatabase>(db: &D, krate: Crate, builtin: BuiltinAttr) -> AttrUse
    ensures { attr_use_of result ≡ rules.builtin_use (D.oracle db.now) krate builtin }
{
    match builtin {
        BuiltinAttr::Derive => AttrUse::ReadsDerives,
        BuiltinAttr::Other(_) => AttrUse::ReplacesItem,
        BuiltinAttr::Test | BuiltinAttr::Bench | BuiltinAttr::TestCase => {
            if db.cfg_flag(krate, Name(26)) {
                AttrUse::PassesOver
            } else {
                AttrUse::ReplacesItem
            }
        }
    }
}

/// What a procedural macro does with the item of its attribute, by what expands it.
fn expander_use(expander: CustomProcMacroExpander) -> AttrUse
    ensures { attr_use_of result ≡ rules.expander_use expander }
{
    match expand_error(expander) {
        None => AttrUse::ReplacesItem,
        Some(err) => AttrUse::HasNoExpander(err),
    }
}

/// Calls the macro of an attribute that waits, once the attribute is among those that expansions of
/// the item are not to see.
pub fn attr_call<D: SourceDatabase>(
    db: &D,
    krate: Crate,
    item_attrs: &ItemAttrs,
    directive: &MacroDirective<'_>,
    written: WrittenAttr<'_>,
    found: MacroDefId,
) -> MacroCallId
    ensures { (s : State) → s.map.id.krate ≡ krate → active_of item_attrs.now ≡ with_active s.active directive.now.position written.entry.attr_id →
        result ≡ (D.oracle db.now).make_attr_call (rules.attr_query s (macro_directive_of directive.now) (written_attr_of written.entry) found) }
{
    db.make_attr_call(AttrCallQuery {
        krate,
        macro_def: found,
        position: directive.position,
        attr_id: written.attr_id,
        input: written.attr.input.as_ref(),
        ctxt: written.attr.ctxt,
        censored: item_attrs.active(directive.position),
        depth: directive.depth,
    })
}
