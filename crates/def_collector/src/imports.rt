//! Imports: each pass records those that are ready.
ghost use Rattle.std.specs.Prelude.{◌≡◌, ◌<◌, [], ℕ, true, false, Some, IfOk, OnOk};
ghost use Rattle.def_map.specs.PathAnswer.{whole};
ghost use Rattle.def_interner.specs.declared.interner.Interner.{Interner};
ghost use Rattle.def_collector.specs.Collector.{state_of};
ghost use Rattle.def_collector.specs.Passes.{IsUnready};
ghost use Rattle.def_steps.specs.declared.directive.ImportDirective.{ImportDirective};
ghost use Rattle.def_steps.specs.ImportLists.{import_at};
ghost use Rattle.def_steps.specs.Shown.{import_of};
ghost use Rattle.def_laws.specs.Turns.{Moves, turns_left};
ghost use Rattle.def_laws.specs.Performs.{Performs};
ghost use Rattle.def_rules.specs.Imports.{answer_now};
ghost use Rattle.def_rules.specs.Recording.{record_effect, NoneReady};
ghost use Rattle.def_rules.specs.State.{IsBare};
ghost use Rattle.def_laws.specs.Runs.{Leads};

use crate::collector::DefCollector;
use crate::globs::record_glob;
use def_imports::{Glance, glance_at, record_named, resolve_import};
use def_interner::Interner;
use def_map::{PathAnswer, SourceDatabase};
use def_steps::{Import, ImportAt, ImportList, is_ready, kept_after, new_prelude};
use item_tree::ImportKind;
use std::alloc::AllocError;

/// Records each import that is ready: those that are unresolved first, and then those that are
/// indeterminate, in the order in which they became so. Answers whether another pass may record one.
/// On `Err` nothing but safety is promised.
pub fn resolve_imports<'a, D: SourceDatabase>(
    collector: &mut DefCollector<'a>,
    db: &D,
    session: &Interner,
) -> Result<bool, AllocError>
    requires { IsBare (state_of collector.old session.now) }
    ensures run { OnOk result (Leads (D.oracle db.now)
        [] (state_of collector.old session.now) [] (state_of collector.new session.now)) }
    ensures settled { IfOk result (λ moved. moved ≡ false →
        NoneReady (D.oracle db.now) (state_of collector.new session.now)) }
    ensures fewer { IfOk result (λ moved. moved ≡ true → turns_left (state_of collector.new session.now) < turns_left (state_of collector.old session.now)) }
{
    let unresolved = try_imports(collector, db, session, ImportList::Unresolved)?;
    let indeterminate = try_imports(collector, db, session, ImportList::Indeterminate)?;
    // Where none is unresolved, all that wait were tried after the last that was recorded.
    let waiting = collector.imports.places(ImportList::Unresolved);
    Ok(indeterminate || (unresolved && waiting > 0))
}

/// Tries each import of a list in order, and drops from it what stands there no longer. Answers whether
/// one was recorded.
fn try_imports<'a, D: SourceDatabase>(
    collector: &mut DefCollector<'a>,
    db: &D,
    session: &Interner,
    list: ImportList,
) -> Result<bool, AllocError>
    requires { IsBare (state_of collector.old session.now) }
    ensures run { OnOk result (Leads (D.oracle db.now)
        [] (state_of collector.old session.now) [] (state_of collector.new session.now)) }
    ensures fewer { IfOk result (λ moved. moved ≡ true →
        turns_left (state_of collector.new session.now) < turns_left (state_of collector.old session.now)) }
    ensures unready { IfOk result (λ moved. moved ≡ false → (index : ℕ) →
        IsUnready (D.oracle db.now) session.now collector.old (record { list = list; index = index })) }
    ensures same { IfOk result (λ moved. moved ≡ false → collector.new ≡ collector.old) }
{
    let mut moved = false;
    'tried: for index in 0..collector.imports.places(list) {
        if try_import(collector, db, session, ImportAt { list, index })? {
            moved = true;
        }
    }
    if moved {
        collector.imports.drop_left(list);
    }
    Ok(moved)
}

/// Records an import, if it is ready. Answers whether it was.
pub fn try_import<'a, D: SourceDatabase>(
    collector: &mut DefCollector<'a>,
    db: &D,
    session: &Interner,
    at: ImportAt,
) -> Result<bool, AllocError>
    requires { IsBare (state_of collector.old session.now) }
    ensures moved { IfOk result (λ moved. moved ≡ true →
        Moves (D.oracle db.now) (state_of collector.old session.now) (state_of collector.new session.now)) }
    ensures unready { IfOk result (λ moved. moved ≡ false →
        IsUnready (D.oracle db.now) session.now collector.old at) }
    ensures same { IfOk result (λ moved. moved ≡ false → collector.new ≡ collector.old) }
{
    let Some(directive) = collector.imports.at(at) else {
        return Ok(false);
    };
    let (ns, item) = match glance_at(&collector.world(db, session), directive) {
        Glance::Unready => return Ok(false),
        Glance::Lone(ns, found) => match found.binding(ns) {
            Some(item) => (ns, item),
            None => return Ok(false),
        },
        Glance::Unseen => return try_whole(collector, db, session, at),
    };
    record_ready(collector, db, session, at, &PathAnswer::Lone(ns, &item))
}

/// Records an import with all that its path gives, if it is ready. Answers whether it was. It stands
/// apart, since most paths lead to one item, or to none.
#[inline(never)]
fn try_whole<'a, D: SourceDatabase>(
    collector: &mut DefCollector<'a>,
    db: &D,
    session: &Interner,
    at: ImportAt,
) -> Result<bool, AllocError>
    requires { IsBare (state_of collector.old session.now) }
    ensures moved { IfOk result (λ moved. moved ≡ true →
        Moves (D.oracle db.now) (state_of collector.old session.now) (state_of collector.new session.now)) }
    ensures unready { IfOk result (λ moved. moved ≡ false →
        IsUnready (D.oracle db.now) session.now collector.old at) }
    ensures same { IfOk result (λ moved. moved ≡ false → collector.new ≡ collector.old) }
{
    let Some(directive) = collector.imports.at(at) else {
        return Ok(false);
    };
    let answer = resolve_import(&collector.world(db, session), &directive.import);
    record_ready(collector, db, session, at, &PathAnswer::Whole(&answer))
}

/// Records an import with what its path gives, if it is ready with that. Answers whether it was.
#[inline(never)]
fn record_ready<'a, D: SourceDatabase>(
    collector: &mut DefCollector<'a>,
    db: &D,
    session: &Interner,
    at: ImportAt,
    answer: &PathAnswer,
) -> Result<bool, AllocError>
    requires bare { IsBare (state_of collector.old session.now) }
    requires answer { (d : ImportDirective) → import_at collector.old.imports at ≡ Some d →
        whole answer.now ≡ answer_now (D.oracle db.now) (state_of collector.old session.now) (import_of d.import) }
    ensures moved { IfOk result (λ moved. moved ≡ true →
        Moves (D.oracle db.now) (state_of collector.old session.now) (state_of collector.new session.now)) }
    ensures unready { IfOk result (λ moved. moved ≡ false →
        IsUnready (D.oracle db.now) session.now collector.old at) }
    ensures same { IfOk result (λ moved. moved ≡ false → collector.new ≡ collector.old) }
{
    let Some(directive) = collector.imports.at(at) else {
        return Ok(false);
    };
    if !is_ready(directive.recorded, answer) {
        return Ok(false);
    }
    let import = directive.import;
    let kept = kept_after(directive.recorded, answer);
    collector.imports.retire(at, kept)?;
    record_resolved_import(collector, db, session, &import, answer)?;
    Ok(true)
}

/// Records an import with what its path gives, by its kind. On `Err` nothing but safety is promised.
#[inline(always)]
fn record_resolved_import<'a, D: SourceDatabase>(
    collector: &mut DefCollector<'a>,
    db: &D,
    session: &Interner,
    import: &Import,
    answer: &PathAnswer,
) -> Result<(), AllocError>
    ensures performs { OnOk result (let s = state_of collector.old session.now in
        let effect = record_effect (D.oracle db.now) s (import_of import.now) (whole answer.now) in
        Performs (D.oracle db.now) effect.tasks effect.state (state_of collector.new session.now)) }
    ensures frame { collector.new ≡ record collector.old { def_map = collector.new.def_map; table = collector.new.table; targets = collector.new.targets } }
{
    match import.written.kind {
        ImportKind::Plain | ImportKind::TypeOnly => {
            let at = import.module_id;
            let vis = collector.resolve_visibility(db, session, at, import.vis);
            let table = &mut collector.table;
            let alloc = collector.alloc;
            record_named(alloc, &collector.def_map, table, import, vis, answer)
        }
        ImportKind::Glob => match new_prelude(import, answer) {
            Some(source) => {
                collector.def_map.prelude = Some(source);
                Ok(())
            }
            None => record_glob(collector, db, session, import, answer),
        },
    }
}
