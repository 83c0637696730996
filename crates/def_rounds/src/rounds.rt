//! Imports are recorded and macros expanded until nothing moves.
ghost use Rattle.std.specs.Prelude.{◌≡◌, ◌<◌, [], false, true, IfOk, OnOk};
ghost use Rattle.def_interner.specs.Session.{AddsLocations, session_of};
ghost use Rattle.def_laws.specs.Runs.{Leads};
ghost use Rattle.def_laws.specs.Sound.{IsSoundWith};
ghost use Rattle.def_laws.specs.Turns.{turns_left};
ghost use Rattle.def_rounds.specs.Rounds.{Ends};
ghost use Rattle.def_rules.specs.Recording.{NoneReady};
ghost use Rattle.def_rules.specs.State.{IsBare};

use crate::passes::Passes;
use def_interner::Interner;
use std::alloc::AllocError;

/// How many rounds a run may make: passes over the macros in which one leaves.
const FIXED_POINT_LIMIT: u32 = 8192;

/// How many passes over all imports record some before those that wait watch the names that they read,
/// where none of these passes is slow. In most crates nothing moves after these.
const PASSES_WITHOUT_WATCHES: u32 = 2;

/// Records imports and expands macros in turns, and gives up attributes whose macros are not found, until
/// nothing moves, or too many rounds were made. Giving up is no round. Answers whether the limit of
/// rounds was met. On `Err` nothing but safety is promised.
pub fn resolution_loop<P: Passes>(
    passes: &mut P,
    session: &mut Interner,
) -> Result<bool, AllocError>
    requires sound { IsSoundWith [] (P.state passes.old session.old) }
    requires bare { IsBare (P.state passes.old session.old) }
    ensures asks { OnOk result (P.oracle passes.new ≡ P.oracle passes.old) }
    ensures ends { IfOk result (λ limit_met. Ends (P.oracle passes.old)
        [] (P.state passes.old session.old) limit_met (P.state passes.new session.new)) }
    ensures sound { OnOk result (IsSoundWith [] (P.state passes.new session.new)) }
    ensures bare { OnOk result (IsBare (P.state passes.new session.new)) }
    ensures session { AddsLocations (session_of session.old) (session_of session.new) }
{
    let mut rounds = 0u32;
    'rounds: loop {
        import_passes(passes, session)?;
        if passes.resolve_macros(session)? {
            rounds += 1;
            if FIXED_POINT_LIMIT < rounds {
                return Ok(true);
            }
        } else if !passes.fall_back(session)? {
            return Ok(false);
        }
    }
}

/// Records imports until none is ready. On `Err` nothing but safety is promised.
fn import_passes<P: Passes>(passes: &mut P, session: &Interner) -> Result<(), AllocError>
    requires { IsBare (P.state passes.old session.now) }
    ensures asks { OnOk result (P.oracle passes.new ≡ P.oracle passes.old) }
    ensures run { OnOk result (Leads (P.oracle passes.old)
        [] (P.state passes.old session.now) [] (P.state passes.new session.now)) }
    ensures settled { OnOk result (NoneReady (P.oracle passes.old) (P.state passes.new session.now)) }
{
    let mut made = 0u32;
    'passes: while import_pass(passes, session, made)? {
        made = made.saturating_add(1);
    }
    Ok(())
}

/// Records each import that is ready, in a pass over all of them; in one that is slow or not among the
/// first, also those that become ready by what it recorded. Answers whether one was recorded. On `Err` nothing
/// but safety is promised.
fn import_pass<P: Passes>(passes: &mut P, session: &Interner, made: u32) -> Result<bool, AllocError>
    requires { IsBare (P.state passes.old session.now) }
    ensures asks { OnOk result (P.oracle passes.new ≡ P.oracle passes.old) }
    ensures run { OnOk result (Leads (P.oracle passes.old)
        [] (P.state passes.old session.now) [] (P.state passes.new session.now)) }
    ensures settled { IfOk result (λ moved. moved ≡ false →
        NoneReady (P.oracle passes.old) (P.state passes.new session.now)) }
    ensures fewer { IfOk result (λ moved. moved ≡ true → turns_left (P.state passes.new session.now) < turns_left (P.state passes.old session.now)) }
{
    if !passes.resolve_imports(session)? {
        return Ok(false);
    }
    if made < PASSES_WITHOUT_WATCHES && !passes.is_slow() {
        return Ok(true);
    }
    passes.record_woken(session)?;
    Ok(true)
}
