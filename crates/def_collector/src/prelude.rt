//! The prelude: the module whose names are seen everywhere in a crate.
ghost use Rattle.std.specs.Prelude.{◌≡◌, OnOk};
ghost use Rattle.def_collector.specs.Collector.{state_of};
ghost use Rattle.def_rules.specs.Start.{head_of, with_head, with_prelude};

use crate::collector::DefCollector;
use def_imports::prelude_module;
use def_interner::Interner;
use def_map::SourceDatabase;
use std::alloc::AllocError;

/// Finds the prelude. On `Err` nothing but safety is promised.
pub fn inject_prelude<'a, D: SourceDatabase>(
    collector: &mut DefCollector<'a>,
    db: &D,
    session: &Interner,
) -> Result<(), AllocError>
    ensures { OnOk result (let s = state_of collector.old session.now in
        state_of collector.new session.now ≡ with_head s (with_prelude (D.oracle db.now) s (head_of s))) }
{
    let krate = &collector.def_map.krate;
    let found = prelude_module(collector.alloc, krate, &collector.world(db, session))?;
    collector.def_map.prelude = found;
    Ok(())
}
