//! The ids of macros and of builtin derives' impls.
#![tactic(auto, using(crate::proofs::TableLemmas::others), unfolding(crate::specs::Session::shown_macro))]

ghost use Rattle.std.specs.Prelude.{◌≡◌};
ghost use Rattle.def_interner.specs.Session.{MacroLoc, rules_loc, macro2_loc, proc_macro_loc};
ghost use Rattle.def_ids.specs.declared.ids.MacroId.TheVariants as variant;
ghost use Rattle.def_ids.specs.declared.locs.BuiltinDeriveImplLoc.{BuiltinDeriveImplLoc};

use crate::interner::Interner;
use crate::location::{Location, LocationId};
use crate::macro_def::{MacroDefId, MacroDefKind};
use def_ids::{
    BuiltinDeriveImplId, BuiltinDeriveImplLoc, Macro2Id, Macro2Loc, MacroId, MacroRulesId,
    MacroRulesLoc, ProcMacroId, ProcMacroLoc,
};
use std::alloc::AllocError;

impl LocationId for MacroRulesId {
    type Loc = MacroRulesLoc;

    ghost number = { λ id. id.0 };

    ghost entries = { λ s. s.macro_rules };

    ghost with_entries = { λ s locations. record s { macro_rules = locations } };

    ghost Shown = { MacroLoc };

    ghost shown = { rules_loc };

    ghost shown_at = { λ session id. session.macro_at (variant.MacroRules id) };

    fn lookup<'a>(self, session: &'a Interner) -> Option<&'a MacroRulesLoc> {
        session.macro_rules.value(self.0)
    }
}

impl Location for MacroRulesLoc {
    type Id = MacroRulesId;

    fn intern(self, session: &mut Interner) -> Result<MacroRulesId, AllocError> {
        Ok(MacroRulesId(session.macro_rules.number(self)?))
    }
}

impl LocationId for Macro2Id {
    type Loc = Macro2Loc;

    ghost number = { λ id. id.0 };

    ghost entries = { λ s. s.macro2s };

    ghost with_entries = { λ s locations. record s { macro2s = locations } };

    ghost Shown = { MacroLoc };

    ghost shown = { macro2_loc };

    ghost shown_at = { λ session id. session.macro_at (variant.Macro2 id) };

    fn lookup<'a>(self, session: &'a Interner) -> Option<&'a Macro2Loc> {
        session.macro2s.value(self.0)
    }
}

impl Location for Macro2Loc {
    type Id = Macro2Id;

    fn intern(self, session: &mut Interner) -> Result<Macro2Id, AllocError> {
        Ok(Macro2Id(session.macro2s.number(self)?))
    }
}

impl LocationId for ProcMacroId {
    type Loc = ProcMacroLoc;

    ghost number = { λ id. id.0 };

    ghost entries = { λ s. s.proc_macros };

    ghost with_entries = { λ s locations. record s { proc_macros = locations } };

    ghost Shown = { MacroLoc };

    ghost shown = { proc_macro_loc };

    ghost shown_at = { λ session id. session.macro_at (variant.ProcMacro id) };

    fn lookup<'a>(self, session: &'a Interner) -> Option<&'a ProcMacroLoc> {
        session.proc_macros.value(self.0)
    }
}

impl Location for ProcMacroLoc {
    type Id = ProcMacroId;

    fn intern(self, session: &mut Interner) -> Result<ProcMacroId, AllocError> {
        Ok(ProcMacroId(session.proc_macros.number(self)?))
    }
}

impl LocationId for BuiltinDeriveImplId {
    type Loc = BuiltinDeriveImplLoc;

    ghost number = { λ id. id.0 };

    ghost entries = { λ s. s.builtin_derive_impls };

    ghost with_entries = { λ s locations. record s { builtin_derive_impls = locations } };

    ghost Shown = { BuiltinDeriveImplLoc };

    ghost shown = { λ loc. loc };

    ghost shown_at = { λ session id. session.derive_impl id.0 };

    fn lookup<'a>(self, session: &'a Interner) -> Option<&'a BuiltinDeriveImplLoc> {
        session.builtin_derive_impls.value(self.0)
    }
}

impl Location for BuiltinDeriveImplLoc {
    type Id = BuiltinDeriveImplId;

    fn intern(self, session: &mut Interner) -> Result<BuiltinDeriveImplId, AllocError> {
        Ok(BuiltinDeriveImplId(session.builtin_derive_impls.number(self)?))
    }
}

impl Interner {
    ghost use Rattle.def_interner.specs.Session.{macro_def, session_of};

    /// A macro with its crate and what expands it, if the session knows it.
    pub fn macro_def(&self, id: MacroId) -> Option<MacroDefId>
        ensures { result ≡ macro_def (session_of self.now) id }
    {
        match id {
            MacroId::MacroRules(rules) => {
                let loc = rules.lookup(self)?;
                Some(MacroDefId {
                    krate: loc.container.map.krate,
                    id,
                    kind: MacroDefKind::of_expander(loc.expander),
                })
            }
            MacroId::Macro2(macro2) => {
                let loc = macro2.lookup(self)?;
                Some(MacroDefId {
                    krate: loc.container.map.krate,
                    id,
                    kind: MacroDefKind::of_expander(loc.expander),
                })
            }
            MacroId::ProcMacro(proc_macro) => {
                let loc = proc_macro.lookup(self)?;
                Some(MacroDefId {
                    krate: loc.container.map.krate,
                    id,
                    kind: MacroDefKind::ProcMacro(loc.expander, loc.kind),
                })
            }
        }
    }
}
