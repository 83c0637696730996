//! Locations of macros, whose `==` is taken apart field by field.
ghost use Rattle.def_interner.specs.ExactLaws.{five_exact};
ghost use Rattle.def_interner.specs.contracts.exact.ModuleIdExact.TheImpl.Laws as container;
ghost use Rattle.def_interner.specs.contracts.exact.InFileFileAstIdExact.TheImpl.Laws as position;
ghost use Rattle.def_interner.specs.contracts.exact.MacroExpanderExact.TheImpl.Laws as expander;
ghost use Rattle.def_interner.specs.contracts.exact.CustomProcMacroExpanderExact.TheImpl.Laws as custom;
ghost use Rattle.def_interner.specs.contracts.exact.MacroRulesLocFlagsExact.TheImpl.Laws as flags;
ghost use Rattle.def_interner.specs.contracts.exact.ProcMacroUseExact.TheImpl.Laws as called;
ghost use Rattle.def_interner.specs.contracts.exact.EditionExact.TheImpl.Laws as edition;

use crate::exact::Exact;
use def_ids::{Macro2Loc, MacroRulesLoc, ProcMacroLoc};

impl Exact for MacroRulesLoc {
    ghost exact = { λ a b same.
        let fields = five_exact container.exact-law position.exact-law expander.exact-law
        flags.exact-law edition.exact-law same in
        λ i. record {
          container = fields.0 i;
          position = fields.1 i;
          expander = fields.2 i;
          flags = fields.3 i;
          edition = fields.4 i;
        } };
}

impl Exact for Macro2Loc {
    ghost exact = { λ a b same.
        let fields = five_exact container.exact-law position.exact-law expander.exact-law
        flags.exact-law edition.exact-law same in
        λ i. record {
          container = fields.0 i;
          position = fields.1 i;
          expander = fields.2 i;
          flags = fields.3 i;
          edition = fields.4 i;
        } };
}

impl Exact for ProcMacroLoc {
    ghost exact = { λ a b same.
        let fields = five_exact container.exact-law position.exact-law custom.exact-law
        called.exact-law edition.exact-law same in
        λ i. record {
          container = fields.0 i;
          position = fields.1 i;
          expander = fields.2 i;
          kind = fields.3 i;
          edition = fields.4 i;
        } };
}
