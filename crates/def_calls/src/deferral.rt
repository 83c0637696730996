//! How derives are deferred, and what becomes of them where an attribute replaces their item.
ghost use Rattle.std.specs.Prelude.{◌≡◌};
ghost use Rattle.def_calls.specs.Shown.{expansion_shown, macro_directive_of, written_derive_of};
ghost use Rattle.def_rules.specs.Deferred.{deferral, deferred_expansion};

use crate::directives::{Expansion, MacroDirective, WrittenDerive};
use def_map::HelpersRange;
use def_rules::DeferredDerive;
use item_tree::MacroCallId;
use macro_calls::deeper;

impl<'a> MacroDirective<'a> {
    /// How a derive of the attribute that waited is deferred: one level deeper, with the helpers that it
    /// added.
    pub fn deferral(
        &self,
        written: WrittenDerive<'a>,
        call: MacroCallId,
        derive: u32,
        helpers: HelpersRange,
    ) -> DeferredDerive
        ensures { result ≡ deferral (macro_directive_of self.now) (written_derive_of written.entry) call derive helpers }
    {
        DeferredDerive {
            derive,
            attr_id: written.attr_id,
            pos: written.pos,
            call,
            helpers,
            module_id: self.module_id,
            container: self.container,
            depth: deeper(self.depth),
        }
    }
}

impl Expansion {
    /// That of a derive that was deferred.
    pub fn deferred(derive: &DeferredDerive) -> Expansion
        ensures { expansion_shown result ≡ deferred_expansion derive.now }
    {
        Expansion {
            module_id: derive.module_id,
            container: derive.container,
            depth: derive.depth,
            call: derive.call,
            replaces: None,
        }
    }
}
