//! The macro that a path names once imports are resolved.
ghost use Rattle.def_map.specs.Asking.{world_lent};
ghost use Rattle.def_sources.specs.Tables.{bound_by};
ghost use Rattle.def_map.specs.Paths.{resolver};

use def_ids::ModuleId;
use def_interner::MacroDefId;
use def_map::{
    Asked, BuiltinShadowMode, MacroResolver, MacroSubNs, ResolveMode, SourceDatabase, Table, World,
    resolve_path_macro,
};
use item_tree::ModPath;

/// Finds the macros that paths name in a module once imports are resolved. Of a name that stands
/// alone, only macros count that can be called in this way; `shadow` says whether a builtin type goes
/// before a module of its name.
pub struct PathResolver<'a, D> {
    pub world: World<'a, D, Table>,
    pub module_id: ModuleId,
    pub shadow: BuiltinShadowMode,
    pub sub: MacroSubNs,
}

impl<'a, D> Drop for PathResolver<'a, D> {
    fn drop(self) {
        let PathResolver {
            world: _,
            module_id: _,
            shadow: _,
            sub: _,
        } = self;
    }
}

impl<'a, D: SourceDatabase> MacroResolver for PathResolver<'a, D> {
    ghost resolved = { λ r. resolver (world_lent D.oracle bound_by r.world) r.shadow r.sub r.module_id };

    fn resolve(&self, path: &ModPath) -> Option<MacroDefId> {
        let asked = Asked {
            mode: ResolveMode::Other,
            shadow: self.shadow,
            sub: Some(self.sub),
        };
        let id = resolve_path_macro(&self.world, asked, self.module_id, path)?;
        self.world.session.macro_def(id)
    }
}
