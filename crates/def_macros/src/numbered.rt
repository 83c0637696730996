//! Items that define macros: each gets its number, and with it what expands it.
ghost use Rattle.std.specs.Prelude.{◌≡◌, IfOk, OnOk};
ghost use Rattle.item_tree.specs.declared.items.ModItemKind.TheVariants as kinds;
ghost use Rattle.item_tree.specs.declared.items.RawVisibility.{RawVisibility};
ghost use Rattle.def_interner.specs.Session.{AddsLocations, session_of};
ghost use Rattle.def_modules.specs.Maps.{map_state};
ghost use Rattle.def_parts.specs.Sites.{site_of};
ghost use Rattle.def_macros.specs.Numbered.{IsItem, IsRules};
ghost use Rattle.def_rules.specs.Locations.{AddsOwn};

use crate::expanders::{builtin_name, item_expander, rules_expander};
use crate::flags::{item_flags, rules_flags};
use def_ids::{Macro2Loc, MacroExpander, MacroId, MacroRulesLoc};
use def_interner::{Interner, Location};
use def_map::{MapData, SourceDatabase};
use def_parts::Site;
use item_tree::{ItemNode, Name};
use std::alloc::AllocError;

/// A macro that an item defines: the item and where that stands, the macro's name and id, and what
/// expands it.
#[derive(Clone, Copy)]
pub struct MacroItem<'a> {
    pub site: &'a Site,
    pub node: &'a ItemNode,
    pub name: Name,
    pub id: MacroId,
    pub expander: MacroExpander,
}

/// Numbers a macro by rules.
pub fn number_macro_rules<'a, D: SourceDatabase>(
    db: &D,
    session: &mut Interner,
    def_map: &MapData,
    site: &'a Site,
    node: &'a ItemNode,
    name: Name,
) -> Result<MacroItem<'a>, AllocError>
    ensures rules { IfOk result (λ item.
        IsRules (D.oracle db.now) (map_state def_map.now) (session_of session.new) (site_of site.now) node.now name item) }
    ensures own { OnOk result (node.now.kind ≡ kinds.MacroRules name →
        AddsOwn (site_of site.now) node.now (session_of session.old) (session_of session.new)) }
    ensures session { AddsLocations (session_of session.old) (session_of session.new) }
{
    let found = builtin_name(session, node, name);
    let expander = rules_expander(db, def_map.tree.map.krate, site, node, found);
    let id = MacroRulesLoc {
        container: site.module_id,
        position: site.position(node),
        expander,
        flags: rules_flags(node),
        edition: def_map.krate.edition,
    }
    .intern(session)?;
    Ok(MacroItem {
        site,
        node,
        name,
        id: MacroId::MacroRules(id),
        expander,
    })
}

/// Numbers a `macro` item.
pub fn number_macro<'a, D: SourceDatabase>(
    db: &D,
    session: &mut Interner,
    def_map: &MapData,
    site: &'a Site,
    node: &'a ItemNode,
    name: Name,
) -> Result<MacroItem<'a>, AllocError>
    ensures item { IfOk result (λ item.
        IsItem (D.oracle db.now) (map_state def_map.now) (session_of session.new) (site_of site.now) node.now name item) }
    ensures own { OnOk result ((raw : RawVisibility) → node.now.kind ≡ kinds.Macro2 name raw →
        AddsOwn (site_of site.now) node.now (session_of session.old) (session_of session.new)) }
    ensures session { AddsLocations (session_of session.old) (session_of session.new) }
{
    let expander = item_expander(db, def_map.tree.map.krate, site, node, name);
    let id = Macro2Loc {
        container: site.module_id,
        position: site.position(node),
        expander,
        flags: item_flags(node),
        edition: def_map.krate.edition,
    }
    .intern(session)?;
    Ok(MacroItem {
        site,
        node,
        name,
        id: MacroId::Macro2(id),
        expander,
    })
}
