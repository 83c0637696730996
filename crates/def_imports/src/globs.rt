//! Globs: what one brings, and its edge.
ghost use Rattle.std.specs.Prelude.{◌≡◌, Some, IfOk, OnOk};
ghost use Rattle.def_map.specs.Asking.{world_lent};
ghost use Rattle.def_map.specs.Oracle.{Oracle};
ghost use Rattle.def_sources.specs.Tables.{bound_by};
ghost use Rattle.def_items.specs.Parts.{with_parts};
ghost use Rattle.def_laws.specs.Performs.{Performs};
ghost use Rattle.def_imports.specs.GlobEntries.{edge_source, entries_of_enum, entries_of_glob, entries_of_module};
ghost use Rattle.def_rules.specs.Recording.{glob_tasks, is_own_crate};
ghost use Rattle.def_rules.specs.State.{State, world};

use def_bindings::{EdgeTo, Entry, Visibility};
use def_globs::Globs;
use def_ids::{Def, EnumId, MapId, ModuleId};
use def_interner::LocationId;
use def_items::put;
use def_map::{MapData, SourceDatabase, Table, World, finished_map};
use def_steps::{GlobScope, variants_entries};
use std::alloc::{AllocError, Global};

/// Puts what a glob of a definition brings, and adds its edge last: what the importer is brought
/// goes on along its own edges before names of the source travel here. On `Err` nothing but safety
/// is promised.
pub fn put_glob(
    def_map: &MapData,
    table: &mut Globs<Table>,
    glob: EdgeTo<Visibility>,
    entries: Vec<Entry<Visibility>>,
    def: Def,
) -> Result<(), AllocError>
    ensures { OnOk result ((oracle : Oracle) (s : State) →
        let before = with_parts s def_map.now table.old in
        entries.items ≡ entries_of_glob (world oracle before) glob def →
        Performs oracle (glob_tasks (world oracle before) glob (Some def)) before (with_parts s def_map.now table.new)) }
{
    put(def_map, table, glob.importer, entries.as_slice())?;
    let Some(source) = edge_source(def_map.tree.map, def) else {
        return Ok(());
    };
    table.add_edge(&def_map.tree, source, glob.importer, glob.vis, glob.glob)?;
    Ok(())
}

/// The module at which the edge of a glob of a definition begins: one of this crate.
fn edge_source(map: MapId, def: Def) -> Option<ModuleId>
    ensures { result ≡ edge_source map def }
{
    match def {
        Def::Module(source) if is_own_crate(map, source) => Some(source),
        _ => None,
    }
}

/// Whether a module is of the map's crate.
fn is_own_crate(map: MapId, source: ModuleId) -> bool
    ensures { result ≡ is_own_crate map source }
{
    source.map.krate == map.krate
}

/// The entries of what a glob of a definition brings. All but modules and enums bring nothing.
pub fn glob_entries<D: SourceDatabase>(
    alloc: Global,
    world: &World<'_, D, Table>,
    glob: EdgeTo<Visibility>,
    def: Def,
) -> Result<Vec<Entry<Visibility>>, AllocError>
    ensures { IfOk result (λ entries.
        entries.items ≡ entries_of_glob (world_lent D.oracle bound_by world.now) glob def) }
{
    match def {
        Def::Module(source) => module_entries(alloc, world, glob, source),
        Def::Enum(id) => enum_entries(alloc, world, glob, id),
        _ => Ok(Vec::new(alloc)),
    }
}

/// The entries of what a glob sees of a module. A map that the database lacks binds nothing.
fn module_entries<D: SourceDatabase>(
    alloc: Global,
    world: &World<'_, D, Table>,
    glob: EdgeTo<Visibility>,
    source: ModuleId,
) -> Result<Vec<Entry<Visibility>>, AllocError>
    ensures { IfOk result (λ entries.
        entries.items ≡ entries_of_module (world_lent D.oracle bound_by world.now) glob source) }
{
    let order = &world.map.tree;
    let own = is_own_crate(order.map, source);
    if source.map == order.map {
        let scope = GlobScope {
            table: world.table,
            order,
            glob,
            own,
            source,
        };
        return scope.entries(alloc);
    }
    let Some(map) = finished_map(world.db, source.map) else {
        return Ok(Vec::new(alloc));
    };
    let scope = GlobScope {
        table: map.table(),
        order,
        glob,
        own,
        source,
    };
    scope.entries(alloc)
}

/// The entries of the variants of an enum. One that is not known has none.
fn enum_entries<D: SourceDatabase>(
    alloc: Global,
    world: &World<'_, D, Table>,
    glob: EdgeTo<Visibility>,
    id: EnumId,
) -> Result<Vec<Entry<Visibility>>, AllocError>
    ensures { IfOk result (λ entries.
        entries.items ≡ entries_of_enum (world_lent D.oracle bound_by world.now) glob id.0) }
{
    let Some(loc) = id.lookup(world.session) else {
        return Ok(Vec::new(alloc));
    };
    let Some(variants) = world.db.enum_variants(loc) else {
        return Ok(Vec::new(alloc));
    };
    variants_entries(alloc, &world.map.tree, glob, variants)
}
