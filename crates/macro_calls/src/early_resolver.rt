//! The macro that a call finds where it stands, before imports are resolved.
ghost use Rattle.std.specs.Prelude.{◌≡◌, ◌∷◌, ◌++◌, [], option_and_then};
ghost use Rattle.std.specs.Option.{option_or};
ghost use Rattle.def_bindings.specs.declared.bindings.Namespace.TheVariants.{Macros};
ghost use Rattle.def_sources.specs.Items.{macro_of_def};
ghost use Rattle.def_map.specs.Asking.{world_lent};
ghost use Rattle.def_sources.specs.Tables.{bound_by};
ghost use Rattle.def_map.specs.OuterMaps.{first_of_each_map};
ghost use Rattle.def_map.specs.Paths.{macro_named, scope};
ghost use Rattle.def_rules.specs.Calls as calls;

use def_bindings::{BindingTable, Namespace};
use def_ids::{Def, MacroId, ModuleId};
use def_interner::MacroDefId;
use def_map::{MacroResolver, SourceDatabase, Table, World, finished_map, is_map_among};
use item_tree::{ModPath, Name};

/// Finds the macros of a module before imports are resolved, by plain paths of one segment alone:
/// its last textual macro of the name, then that of each map around its block, then what the module
/// binds, then a macro that an extern crate brought. What can't be called is not found.
pub struct EarlyResolver<'a, D> {
    pub world: World<'a, D, Table>,
    pub module_id: ModuleId,
}

impl<'a, D> Drop for EarlyResolver<'a, D> {
    fn drop(self) {
        let EarlyResolver {
            world: _,
            module_id: _,
        } = self;
    }
}

impl<'a, D: SourceDatabase> MacroResolver for EarlyResolver<'a, D> {
    ghost resolved = { λ resolver. calls.early_meaning (world_lent D.oracle bound_by resolver.world) resolver.module_id };

    fn resolve(&self, path: &ModPath) -> Option<MacroDefId> {
        let name = path.as_ident()?;
        let id = early_macro(&self.world, self.module_id, name)?;
        let found = self.world.session.macro_def(id)?;
        if found.kind.is_fn_like() {
            Some(found)
        } else {
            None
        }
    }
}

/// The macro that a name calls.
fn early_macro<D: SourceDatabase>(
    world: &World<'_, D, Table>,
    place: ModuleId,
    name: Name,
) -> Option<MacroId>
    ensures { result ≡ calls.early_macro (world_lent D.oracle bound_by world.now) place name }
{
    if let Some(id) = textual_macro(world, place, name) {
        return Some(id);
    }
    if let Some(id) = textual_around(world, name) {
        return Some(id);
    }
    if let Some(id) = bound_macro(world, place, name) {
        return Some(id);
    }
    world.map.macro_use(name)
}

/// The last textual macro of a name in a module, also of a finished map.
fn textual_macro<D: SourceDatabase>(
    world: &World<'_, D, Table>,
    place: ModuleId,
    name: Name,
) -> Option<MacroId>
    ensures { result ≡ calls.textual_macro (world_lent D.oracle bound_by world.now) name place }
{
    if place.map == world.map.tree.map {
        return world.map.textual_macro(place, name);
    }
    match finished_map(world.db, place.map) {
        Some(map) => map.textual_macro(place, name),
        None => None,
    }
}

/// The last textual macro of a name in the map of a module, if it is none of those of the modules
/// before.
fn textual_in_next<D: SourceDatabase>(
    world: &World<'_, D, Table>,
    name: Name,
    before: &[ModuleId],
    place: ModuleId,
) -> Option<MacroId>
    ensures { let w = world_lent D.oracle bound_by world.now in
        (rest : _) → calls.textual_among w name (first_of_each_map before.now (place ∷ rest))
        ≡ option_or result (calls.textual_among w name (first_of_each_map (before.now ++ place ∷ []) rest)) }
{
    if is_map_among(before, place) {
        None
    } else {
        textual_macro(world, place, name)
    }
}

/// The last textual macro of a name in the maps around a block, each asked at its first entry: that
/// of the first map that has one.
fn textual_around<D: SourceDatabase>(world: &World<'_, D, Table>, name: Name) -> Option<MacroId>
    ensures { let w = world_lent D.oracle bound_by world.now in
        result ≡ calls.textual_among w name (first_of_each_map [] w.map.facts.containing) }
{
    let containing = world.map.tree.containing.as_slice();
    'maps: for i in 0..containing.len() {
        let found = textual_in_next(world, name, &containing[..i], containing[i]);
        if found.is_some() {
            return found;
        }
    }
    None
}

/// The macro that a module binds to a name, also in a finished map.
fn bound_macro<D: SourceDatabase>(
    world: &World<'_, D, Table>,
    place: ModuleId,
    name: Name,
) -> Option<MacroId>
    ensures { result ≡ macro_named (scope (world_lent D.oracle bound_by world.now) place name) }
{
    if place.map == world.map.tree.map {
        return macro_in(world.table, place, name);
    }
    match finished_map(world.db, place.map) {
        Some(map) => macro_in(map.table(), place, name),
        None => None,
    }
}

/// The macro that a table binds.
fn macro_in(table: &Table, place: ModuleId, name: Name) -> Option<MacroId>
    ensures { result ≡ option_and_then (λ held. macro_of_def held.def) ((bound_by table.now).binding place name Macros) }
{
    match table.binding(place, name, Namespace::Macros)?.def {
        Def::Macro(id) => Some(id),
        _ => None,
    }
}
