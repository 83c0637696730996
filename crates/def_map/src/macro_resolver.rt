//! Finders of macros.
ghost use Rattle.std.specs.Prelude.{◌≡◌};

use def_interner::MacroDefId;
use item_tree::ModPath;

/// Finds macros by their paths, as a call's arguments need them.
pub trait MacroResolver {
    ghost use Rattle.std.specs.Prelude.{Option};
    ghost use Rattle.def_interner.specs.declared.macro_def.MacroDefId.{MacroDefId};
    ghost use Rattle.item_tree.specs.declared.mod_path.ModPath.{ModPath};

    /// What it finds for each path.
    ghost resolved: { Self → ModPath → Option MacroDefId };

    fn resolve(&self, path: &ModPath) -> Option<MacroDefId>
        ensures { result ≡ resolved self.now path.now };
}
