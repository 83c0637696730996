//! The macro that the path of a derive names.
ghost use Rattle.std.specs.Prelude.{◌≡◌};
ghost use Rattle.def_map.specs.Asking.{world_lent};
ghost use Rattle.def_map.specs.Paths.{resolver};
ghost use Rattle.def_rules.specs.Derives.{if_derive};
ghost use Rattle.def_sources.specs.Tables.{bound_by};
ghost use Rattle.def_sources.specs.declared.asked.BuiltinShadowMode.TheVariants.{Module};
ghost use Rattle.def_sources.specs.declared.per_ns.MacroSubNs.TheVariants.{Attr};

use crate::path_resolver::PathResolver;
use def_ids::ModuleId;
use def_interner::MacroDefId;
use def_map::{BuiltinShadowMode, MacroResolver, MacroSubNs, SourceDatabase, Table, World};
use item_tree::ModPath;

/// The macro of a derive, once imports are resolved: a macro that can't be derived is none.
pub fn derive_macro<D: SourceDatabase>(
    world: &World<'_, D, Table>,
    module_id: ModuleId,
    path: &ModPath,
) -> Option<MacroDefId>
    ensures { result ≡ if_derive (resolver (world_lent D.oracle bound_by world.now) Module Attr module_id path.now) }
{
    let resolver = PathResolver {
        world: *world,
        module_id,
        shadow: BuiltinShadowMode::Module,
        sub: MacroSubNs::Attr,
    };
    let found = resolver.resolve(path)?;
    if found.is_derive() { Some(found) } else { None }
}
