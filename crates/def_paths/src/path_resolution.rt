//! What paths mean in a world.
ghost use Rattle.std.specs.Prelude.{IfSome, ◌≡◌, None, false};
ghost use Rattle.def_sources.specs.Asking.{world_lent};
ghost use Rattle.def_paths.specs.Paths.{resolve as meaning_of, resolve_visibility as visibility_of};
ghost use Rattle.def_paths.specs.Answers.{reached};
ghost use Rattle.def_sources.specs.PerNs.{per_namespace};
ghost use Rattle.def_paths.specs.Paths.{for_module, module_found, module_reached as module_reached_by};
ghost use Rattle.def_paths.specs.Paths.{macro_named};

use crate::answers::resolve;
use crate::macro_resolution::resolve_macro;
use crate::path_result::ResolvePathResult;
use crate::short::own_scope_of;
use def_bindings::{BindingTable, Visibility};
use def_ids::{Def, MacroId, ModuleId};
use def_sources::{Asked, Asking, PathDatabase, PerNs, World};
use item_tree::{ModPath, Name, RawVisibility};

/// What a path means, asked from a module.
pub fn resolve_path_fp_with_macro<D: PathDatabase, T: BindingTable<Vis = Visibility>>(
    world: &World<'_, D, T>,
    asked: Asked,
    original_module: ModuleId,
    path: &ModPath,
) -> ResolvePathResult
    ensures { result ≡ meaning_of (world_lent D.oracle T.content world.now) asked original_module path.now }
{
    let asking = Asking {
        world: *world,
        asked,
    };
    resolve(&asking, original_module, path)
}

/// Where the map that is asked has all that a path means, asked from a module: a module of it, and a
/// name there. So it is where the path leads through modules of its crate; else it may be `None`.
pub fn resolve_path_scope<D: PathDatabase, T: BindingTable<Vis = Visibility>>(
    world: &World<'_, D, T>,
    asked: Asked,
    original_module: ModuleId,
    path: &ModPath,
) -> Option<(ModuleId, Name)>
    ensures { IfSome result (λ there. meaning_of (world_lent D.oracle T.content world.now) asked original_module path.now
        ≡ reached (per_namespace ((T.content world.now.table.now).binding there.0 there.1)) None false) }
{
    let asking = Asking {
        world: *world,
        asked,
    };
    own_scope_of(&asking, original_module, path)
}

/// The macro that a path means, asked from a module: what `resolve_path_fp_with_macro` has of it in
/// macros, found without the other namespaces.
pub fn resolve_path_macro<D: PathDatabase, T: BindingTable<Vis = Visibility>>(
    world: &World<'_, D, T>,
    asked: Asked,
    original_module: ModuleId,
    path: &ModPath,
) -> Option<MacroId>
    ensures { result ≡ macro_named (meaning_of (world_lent D.oracle T.content world.now) asked original_module path.now).resolved_def }
{
    let asking = Asking {
        world: *world,
        asked,
    };
    match resolve_macro(&asking, original_module, path)?.def {
        Def::Macro(id) => Some(id),
        _ => None,
    }
}

/// The module that a path gives, with no segment left.
pub fn resolve_module<D: PathDatabase, T: BindingTable<Vis = Visibility>>(
    world: &World<'_, D, T>,
    original_module: ModuleId,
    path: &ModPath,
) -> Option<ModuleId>
    ensures { result ≡ module_found (meaning_of (world_lent D.oracle T.content world.now) for_module original_module path.now) }
{
    let answer = resolve_path_fp_with_macro(world, Asked::for_module(), original_module, path);
    module_reached(answer.resolved_def, answer.segment_index)
}

/// What a visibility means that is written in a module. `None` where its path leads to no module.
pub fn resolve_visibility<D: PathDatabase, T: BindingTable<Vis = Visibility>>(
    world: &World<'_, D, T>,
    original_module: ModuleId,
    visibility: &RawVisibility,
) -> Option<Visibility>
    ensures { result ≡ visibility_of (world_lent D.oracle T.content world.now) original_module visibility.now }
{
    match visibility {
        RawVisibility::Public => Some(Visibility::Public),
        RawVisibility::PubCrate => Some(Visibility::PubCrate),
        RawVisibility::PubSelf => Some(Visibility::Module(original_module)),
        RawVisibility::In(path) => {
            match resolve_module(world, original_module, path) {
                Some(limit) => Some(Visibility::Module(limit)),
                None => None,
            }
        }
    }
}

/// The module that a path reaches with no segment left.
fn module_reached(found: PerNs, left: Option<usize>) -> Option<ModuleId>
    ensures { result ≡ module_reached_by found left }
{
    match (found.types, left) {
        (Some(item), None) => match item.def {
            Def::Module(place) => Some(place),
            _ => None,
        },
        _ => None,
    }
}
