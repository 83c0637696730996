//! The prelude of a crate.
ghost use Rattle.std.specs.Prelude.{◌≡◌, IfOk};
ghost use Rattle.def_map.specs.Asking.{world_lent};
ghost use Rattle.def_modules.specs.Maps.{crate_state};
ghost use Rattle.def_sources.specs.Tables.{bound_by};
ghost use Rattle.def_imports.specs.PreludeModule.{prelude_in};

use def_crates::prelude_path;
use def_ids::ModuleId;
use def_map::{DefMapCrateData, SourceDatabase, Table, World, resolve_module};
use std::alloc::{AllocError, Global};

/// The prelude of a crate in this world, if there is one. A crate without `core` has none.
pub fn prelude_module<D: SourceDatabase>(
    alloc: Global,
    krate: &DefMapCrateData,
    world: &World<'_, D, Table>,
) -> Result<Option<ModuleId>, AllocError>
    ensures { IfOk result (λ found. found ≡ prelude_in (crate_state krate.now) (world_lent D.oracle bound_by world.now)) }
{
    if krate.no_core {
        return Ok(None);
    }
    let path = prelude_path(alloc, krate.edition, krate.no_std, world.local)?;
    let root = ModuleId {
        map: world.map.tree.map,
        index: 0,
    };
    Ok(resolve_module(world, root, &path))
}
