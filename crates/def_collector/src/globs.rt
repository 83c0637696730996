//! Globs: what one is recorded with, what it brings, and its edge.
ghost use Rattle.std.specs.Prelude.{◌≡◌, OnOk};
ghost use Rattle.def_laws.specs.Performs.{Performs, target_state};
ghost use Rattle.def_map.specs.PathAnswer.{whole};
ghost use Rattle.def_steps.specs.Shown.{import_of};
ghost use Rattle.def_collector.specs.Collector.{state_of};
ghost use Rattle.def_rules.specs.Imports.{import_vis};
ghost use Rattle.def_rules.specs.Recording.{glob_edge, glob_id, glob_tasks, types_def};
ghost use Rattle.def_rules.specs.State.{world};

use crate::collector::DefCollector;
use def_bindings::{EdgeTo, Namespace};
use def_imports::{glob_entries, put_glob};
use def_interner::Interner;
use def_map::{PathAnswer, SourceDatabase};
use def_steps::{Import, add_target, kept_in};
use std::alloc::AllocError;

/// Records a glob with the definition that its path gives: puts what it brings, and adds its
/// edge last. On `Err` nothing but safety is promised.
#[inline(never)]
pub fn record_glob<'a, D: SourceDatabase>(
    collector: &mut DefCollector<'a>,
    db: &D,
    session: &Interner,
    import: &Import,
    answer: &PathAnswer,
) -> Result<(), AllocError>
    ensures performs { OnOk result (let s = state_of collector.old session.now in
        let import = import_of import.now in
        let glob = glob_edge import (import_vis (D.oracle db.now) s import) in
        Performs (D.oracle db.now) (glob_tasks (world (D.oracle db.now) s) glob (types_def (whole answer.now)))
        (target_state s (glob_id import) (types_def (whole answer.now))) (state_of collector.new session.now)) }
    ensures frame { collector.new ≡ record collector.old { table = collector.new.table; targets = collector.new.targets } }
{
    let Some(item) = kept_in(answer, Namespace::Types) else {
        return Ok(());
    };
    let glob = EdgeTo {
        importer: import.module_id,
        vis: collector.resolve_visibility(db, session, import.module_id, import.vis),
        glob: import.glob_id(),
    };
    add_target(&mut collector.targets, glob.glob, item.def)?;
    let alloc = collector.alloc;
    let entries = glob_entries(alloc, &collector.world(db, session), glob, item.def)?;
    let table = &mut collector.table;
    put_glob(&collector.def_map, table, glob, entries, item.def)
}
