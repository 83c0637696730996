//! What a run does in passes.
ghost use Rattle.std.specs.Prelude.{◌≡◌, ◌<◌, ◌≤◌, [], Contains, false, true, IfOk, OnOk};
ghost use Rattle.def_interner.specs.Session.{AddsLocations, session_of};
ghost use Rattle.def_laws.specs.Runs.{Leads};
ghost use Rattle.def_laws.specs.Sound.{IsSoundWith};
ghost use Rattle.def_laws.specs.Turns.{turns_left};
ghost use Rattle.def_rounds.specs.Rounds.{GetsStuck, GivesUp, MakesRound};
ghost use Rattle.def_rules.specs.Fallback.{IsStuck};
ghost use Rattle.def_rules.specs.Recording.{NoneReady};
ghost use Rattle.def_rules.specs.Settled.{IsNoAttribute};
ghost use Rattle.def_rules.specs.State.{IsBare};
ghost use Rattle.def_rules.specs.Waiting.{MacroDirective};

use def_interner::Interner;
use std::alloc::AllocError;

/// A run with its items walked, and the passes that it is made of. On `Err` a pass promises nothing
/// but safety, and that the session keeps its entries.
pub trait Passes {
    ghost use Rattle.def_interner.specs.declared.interner.Interner.{Interner};
    ghost use Rattle.def_oracle.specs.Oracle.{Oracle};
    ghost use Rattle.def_rules.specs.State.{State};

    ghost oracle: { Self → Oracle };

    ghost state: { Self → Interner → State };

    /// Records each import that is ready, in a pass over all of them. Answers whether another pass may
    /// record one.
    fn resolve_imports(&mut self, session: &Interner) -> Result<bool, AllocError>
        requires { IsBare (state self.old session.now) }
        ensures asks { OnOk result (oracle self.new ≡ oracle self.old) }
        ensures run { OnOk result (Leads (oracle self.old)
            [] (state self.old session.now) [] (state self.new session.now)) }
        ensures settled { IfOk result (λ moved. moved ≡ false →
            NoneReady (oracle self.old) (state self.new session.now)) }
        ensures fewer { IfOk result (λ moved. moved ≡ true → turns_left (state self.new session.now) < turns_left (state self.old session.now)) };

    /// Whether the last pass over all imports left most of those waiting that had waited. What it answers
    /// decides only how soon those that wait watch the names that they read.
    fn is_slow(&self) -> bool;

    /// Records imports until none wakes: each is tried once, and again where a name changed that its
    /// path reads.
    fn record_woken(&mut self, session: &Interner) -> Result<(), AllocError>
        requires { IsBare (state self.old session.now) }
        ensures asks { OnOk result (oracle self.new ≡ oracle self.old) }
        ensures run { OnOk result (Leads (oracle self.old)
            [] (state self.old session.now) [] (state self.new session.now)) }
        ensures turns { OnOk result (turns_left (state self.new session.now) ≤ turns_left (state self.old session.now)) };

    /// Lets each macro that waits have its turn, in order, records the calls that were made for their
    /// arguments, and then walks what was expanded. Answers whether one left.
    fn resolve_macros(&mut self, session: &mut Interner) -> Result<bool, AllocError>
        requires sound { IsSoundWith [] (state self.old session.old) }
        requires ready { NoneReady (oracle self.old) (state self.old session.old) }
        requires bare { IsBare (state self.old session.old) }
        ensures asks { OnOk result (oracle self.new ≡ oracle self.old) }
        ensures round { IfOk result (λ moved. moved ≡ true →
            MakesRound (oracle self.old) (state self.old session.old) (state self.new session.new)) }
        ensures stuck { IfOk result (λ moved. moved ≡ false →
            GetsStuck (oracle self.old) (state self.old session.old) (state self.new session.new)) }
        ensures bare { OnOk result (IsBare (state self.new session.new)) }
        ensures session { AddsLocations (session_of session.old) (session_of session.new) };

    /// Gives up the attribute of the first item that waits for one, and walks the item without it.
    /// Answers whether there was one.
    fn fall_back(&mut self, session: &mut Interner) -> Result<bool, AllocError>
        requires stuck { IsStuck (oracle self.old) (state self.old session.old) }
        requires bare { IsBare (state self.old session.old) }
        ensures asks { OnOk result (oracle self.new ≡ oracle self.old) }
        ensures given_up { IfOk result (λ moved. moved ≡ true →
            GivesUp (oracle self.old) (state self.old session.old) (state self.new session.new)) }
        ensures bare { OnOk result (IsBare (state self.new session.new)) }
        ensures none { IfOk result (λ moved. moved ≡ false →
            (d : MacroDirective) → Contains (state self.new session.new).macros d → IsNoAttribute d.kind) }
        ensures same { IfOk result (λ moved. moved ≡ false →
            state self.new session.new ≡ state self.old session.old) }
        ensures session { AddsLocations (session_of session.old) (session_of session.new) };
}
