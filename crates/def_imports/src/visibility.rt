//! What a written visibility means.
ghost use Rattle.std.specs.Prelude.{◌≡◌, unwrap_or};
ghost use Rattle.def_bindings.specs.declared.visibility.Visibility.TheVariants.{Public};
ghost use Rattle.def_map.specs.Asking.{world_lent};
ghost use Rattle.def_map.specs.Paths.{resolve_visibility};
ghost use Rattle.def_sources.specs.Tables.{bound_by};

use def_bindings::Visibility;
use def_ids::ModuleId;
use def_items::meant_or_public;
use def_map::{SourceDatabase, Table, World, resolve_visibility};
use item_tree::RawVisibility;

/// What a written visibility means in a module of this world. It is public where it means nothing.
pub fn visibility_in<D: SourceDatabase>(
    world: &World<'_, D, Table>,
    module_id: ModuleId,
    visibility: &RawVisibility,
) -> Visibility
    ensures { result ≡ unwrap_or (resolve_visibility (world_lent D.oracle bound_by world.now) module_id visibility.now) Public }
{
    meant_or_public(resolve_visibility(world, module_id, visibility))
}
