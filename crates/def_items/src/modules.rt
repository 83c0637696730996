//! Modules that are added to a map.
ghost use Rattle.std.specs.Prelude.{◌≡◌, ◌||◌, ◌∷◌, [], option_map, unwrap_or, IfOk, OnOk};
ghost use Rattle.item_tree.specs.Attrs.{attrs_in, attrs_of};
ghost use Rattle.def_bindings.specs.declared.bindings.Namespace.TheVariants.{Types};
ghost use Rattle.def_ids.specs.declared.ids.Def.TheVariants as def_kind;
ghost use Rattle.def_modules.specs.Maps.{map_state};
ghost use Rattle.def_modules.specs.Scopes.{module_state};
ghost use Rattle.def_items.specs.Lists.{behind, brought_into};
ghost use Rattle.def_items.specs.Parts.{with_parts};
ghost use Rattle.def_laws.specs.Performs.{Updated};
ghost use Rattle.def_rules.specs.Items.{declared_entry};
ghost use Rattle.def_rules.specs.Modules.{add_module, bring_if, fresh_module, is_macro_use, next_module};
ghost use Rattle.def_rules.specs.State.{State};

use crate::declarations::{Definition, expect_names, put};
use crate::lists::ItemList;
use def_bindings::{Namespace, Visibility};
use def_globs::Globs;
use def_ids::{Def, ModuleId};
use def_map::{MapData, ModuleData, ModuleOrigin, Table};
use item_tree::{ItemNode, ItemTree, Name, sym};
use std::alloc::{AllocError, Global};

/// A module that is to be added: the one that it is a child of, its name, how visible it is, and how
/// many items it begins with, for which room is made.
#[derive(Clone, Copy)]
pub struct ChildModule {
    pub parent: ModuleId,
    pub name: Name,
    pub vis: Visibility,
    pub items: usize,
}

/// A module with nothing in it but the textual macros of the one that it is a child of.
fn fresh_module(
    alloc: Global,
    def_map: &MapData,
    added: ChildModule,
    origin: ModuleOrigin,
) -> Result<ModuleData, AllocError>
    ensures { IfOk result (λ data_of. module_state data_of ≡ fresh_module (map_state def_map.now) added.parent.index added.name added.vis origin) }
{
    let name = Some(added.name);
    match def_map.modules.get(added.parent.index) {
        Some(around) => ModuleData::within(alloc, name, origin, added.vis, around, added.items),
        None => ModuleData::new(alloc, name, origin, added.vis),
    }
}

/// Brings the textual macros of the module of a list into another one, if they are handed on. On
/// `Err` nothing but safety is promised.
pub fn bring_macros(
    alloc: Global,
    def_map: &mut MapData,
    list: &ItemList<'_>,
) -> Result<(), AllocError>
    ensures { OnOk result (map_state def_map.new ≡ brought_into list.now.site.module_id list.now.into (map_state def_map.old)) }
{
    let from = list.site.module_id.index;
    match list.into {
        Some(into) => def_map.import_all_legacy_macros(alloc, from, into.index),
        None => Ok(()),
    }
}

/// The module that textual macros are brought into, if they are handed on.
pub fn into_if(hands_on: bool, into: ModuleId) -> Option<ModuleId>
    ensures { (from : ModuleId) → behind from result ≡ bring_if hands_on from into }
{
    if hands_on { Some(into) } else { None }
}

/// Whether an item hands the textual macros of its module on.
pub fn is_macro_use(node: &ItemNode) -> bool
    ensures { result ≡ is_macro_use (attrs_of node.now.attrs) }
{
    node.by_key(sym::MACRO_USE).exists()
}

/// Whether an item, or the whole tree of its file, hands the textual macros of its module on.
pub fn hands_on(node: &ItemNode, tree: Option<&ItemTree>) -> bool
    ensures { result ≡ (is_macro_use (attrs_of node.now.attrs) || is_macro_use (unwrap_or (option_map (λ t. (attrs_in t.now.attrs).list) tree.entry) [])) }
{
    is_macro_use(node) || is_macro_use_tree(tree)
}

/// Whether a whole tree does. One that is not there does not.
fn is_macro_use_tree(tree: Option<&ItemTree>) -> bool
    ensures { result ≡ is_macro_use (unwrap_or (option_map (λ t. (attrs_in t.now.attrs).list) tree.entry) []) }
{
    match tree {
        Some(tree) => tree
            .top_level_attrs()
            .attrs()
            .by_key(sym::MACRO_USE)
            .exists(),
        None => false,
    }
}

/// Adds a fresh module as a child, and declares it in types. Answers the module. On `Err` nothing
/// but safety is promised.
pub fn push_child_module(
    alloc: Global,
    def_map: &mut MapData,
    table: &mut Globs<Table>,
    added: ChildModule,
    origin: ModuleOrigin,
) -> Result<ModuleId, AllocError>
    ensures child { IfOk result (λ child. (s : State) → child ≡ next_module (with_parts s def_map.old table.old)) }
    ensures added { OnOk result ((s : State) →
        let before = with_parts s def_map.old table.old in
        Updated added.parent (declared_entry added.name Types (def_kind.Module (next_module before)) added.vis ∷ [])
        (add_module before added.parent added.name added.vis origin) (with_parts s def_map.new table.new)) }
{
    let parent = added.parent.index;
    let data = fresh_module(alloc, def_map, added, origin)?;
    let child = ModuleId {
        map: def_map.tree.map,
        index: def_map.push_module(parent, data)?,
    };
    def_map.set_child(parent, added.name, child.index)?;
    def_map.declare(parent, Def::Module(child))?;
    let declared = Definition {
        name: added.name,
        def: Def::Module(child),
        vis: added.vis,
    };
    put(
        def_map,
        table,
        added.parent,
        &[declared.entry(Namespace::Types)],
    )?;
    expect_names(table, child, added.items);
    Ok(child)
}
