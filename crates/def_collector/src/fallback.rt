//! Fallback: where nothing moves any longer, an item that waits for an attribute is given up.
ghost use Rattle.std.specs.Prelude.{◌≡◌, [], false, true, Contains, IfOk, OnOk};
ghost use Rattle.def_interner.specs.Session.{AddsLocations, session_of};
ghost use Rattle.def_collector.specs.Collector.{state_of};
ghost use Rattle.def_rounds.specs.Rounds.{GivesUp};
ghost use Rattle.def_rules.specs.Fallback.{IsStuck};
ghost use Rattle.def_rules.specs.Settled.{IsNoAttribute};
ghost use Rattle.def_rules.specs.State.{IsBare};
ghost use Rattle.def_rules.specs.Waiting.{MacroDirective};

use crate::collector::DefCollector;
use crate::macro_pass::walk_again;
use def_attrs::give_up;
use def_calls::{fill_gap, first_item};
use def_interner::Interner;
use def_map::SourceDatabase;
use std::alloc::AllocError;

/// Gives up the first item that waits for an attribute, if one does: the attribute is reported, and the
/// item is walked without it. What waits last then takes its place. Answers whether there was one. On
/// `Err` nothing but safety is promised.
pub fn fall_back<'a, D: SourceDatabase>(
    collector: &mut DefCollector<'a>,
    db: &'a D,
    session: &mut Interner,
) -> Result<bool, AllocError>
    requires stuck { IsStuck (D.oracle db.now) (state_of collector.old session.old) }
    requires bare { IsBare (state_of collector.old session.old) }
    ensures given_up { IfOk result (λ moved. moved ≡ true →
        GivesUp (D.oracle db.now) (state_of collector.old session.old) (state_of collector.new session.new)) }
    ensures bare { OnOk result (IsBare (state_of collector.new session.new)) }
    ensures none { IfOk result (λ moved. moved ≡ false →
        (d : MacroDirective) → Contains (state_of collector.new session.new).macros d → IsNoAttribute d.kind) }
    ensures same { IfOk result (λ moved. moved ≡ false →
        state_of collector.new session.new ≡ state_of collector.old session.old) }
    ensures session { AddsLocations (session_of session.old) (session_of session.new) }
{
    let Some(item) = first_item(&collector.unresolved_macros) else {
        return Ok(false);
    };
    give_up(
        &mut collector.diagnostics,
        &mut collector.unresolved_macros,
        &mut collector.item_attrs,
        item,
    )?;
    walk_again(collector, db, session, item.directive, item.written)?;
    fill_gap(&mut collector.unresolved_macros, item.at)?;
    Ok(true)
}
