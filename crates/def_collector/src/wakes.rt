//! Imports that wake: each is tried again only where a name changed that its path reads, in the order
//! in which passes over all of them try them.
ghost use Rattle.std.specs.Prelude.{◌≡◌, ◌≤◌, [], false, true, is_some, IfOk, OnOk};
ghost use Rattle.def_collector.specs.Collector.{state_of};
ghost use Rattle.def_collector.specs.Passes.{IsUnready};
ghost use Rattle.def_steps.specs.ImportLists.{import_at};
ghost use Rattle.def_rules.specs.State.{IsBare};
ghost use Rattle.def_laws.specs.Runs.{Leads};
ghost use Rattle.def_laws.specs.Turns.{Moves, turns_left};

use crate::collector::DefCollector;
use crate::imports::try_import;
use def_imports::{Waking, Watchers};
use def_interner::Interner;
use def_map::SourceDatabase;
use def_steps::{ImportAt, ImportList, PendingImports};
use std::alloc::AllocError;

/// Records imports until none wakes: each is tried once, and again where a name changed that its path
/// reads. On `Err` nothing but safety is promised.
pub fn record_woken<'a, D: SourceDatabase>(
    collector: &mut DefCollector<'a>,
    db: &D,
    session: &Interner,
) -> Result<(), AllocError>
    requires { IsBare (state_of collector.old session.now) }
    ensures run { OnOk result (Leads (D.oracle db.now)
        [] (state_of collector.old session.now) [] (state_of collector.new session.now)) }
    ensures turns { OnOk result (turns_left (state_of collector.new session.now) ≤ turns_left (state_of collector.old session.now)) }
{
    let mut waking = Waking::new(
        collector.alloc,
        collector.imports.places(ImportList::Unresolved),
        collector.imports.places(ImportList::Indeterminate),
    )?;
    collector.table.watch();
    'woken: while record_next(collector, db, session, &mut waking)? {}
    collector.table.unwatch();
    collector.imports.drop_left(ImportList::Unresolved);
    collector.imports.drop_left(ImportList::Indeterminate);
    Ok(())
}

/// Records the next import that woke and is ready, and wakes those that watch what changed with it, or
/// all of them where the prelude did. Answers whether there is one.
fn record_next<'a, D: SourceDatabase>(
    collector: &mut DefCollector<'a>,
    db: &D,
    session: &Interner,
    waking: &mut Waking,
) -> Result<bool, AllocError>
    requires { IsBare (state_of collector.old session.now) }
    ensures moved { IfOk result (λ moved. moved ≡ true →
        Moves (D.oracle db.now) (state_of collector.old session.now) (state_of collector.new session.now)) }
    ensures same { IfOk result (λ moved. moved ≡ false → collector.new ≡ collector.old) }
{
    'turns: while let Some(import) = waking.turns.next() {
        let prelude = collector.def_map.prelude;
        if try_woken(collector, db, session, &mut waking.watchers, import)? {
            waking.wake_changed(&mut collector.table)?;
            if collector.def_map.prelude != prelude {
                waking.wake_all(
                    collector.imports.places(ImportList::Unresolved),
                    collector.imports.places(ImportList::Indeterminate),
                )?;
            }
            return Ok(true);
        }
    }
    Ok(false)
}

/// Records an import, if it is ready. Answers whether it was. What may still be recorded of it watches
/// the names that its path reads.
fn try_woken<'a, D: SourceDatabase>(
    collector: &mut DefCollector<'a>,
    db: &D,
    session: &Interner,
    watchers: &mut Watchers,
    import: ImportAt,
) -> Result<bool, AllocError>
    requires { IsBare (state_of collector.old session.now) }
    ensures moved { IfOk result (λ moved. moved ≡ true →
        Moves (D.oracle db.now) (state_of collector.old session.now) (state_of collector.new session.now)) }
    ensures unready { IfOk result (λ moved. moved ≡ false →
        IsUnready (D.oracle db.now) session.now collector.old import) }
    ensures same { IfOk result (λ moved. moved ≡ false → collector.new ≡ collector.old) }
{
    if !read_names(collector, db, session, watchers, import)? {
        return Ok(false);
    }
    let count = collector.imports.places(ImportList::Indeterminate);
    let moved = try_import(collector, db, session, import)?;
    if let Some(kept) = kept_at(&collector.imports, import, moved, count) {
        watchers.watch(kept)?;
    }
    Ok(moved)
}

/// Notes the names that the path of an import reads. Answers whether an import is there.
fn read_names<D: SourceDatabase>(
    collector: &DefCollector<'_>,
    db: &D,
    session: &Interner,
    watchers: &mut Watchers,
    import: ImportAt,
) -> Result<bool, AllocError>
    ensures { IfOk result (λ there. there ≡ is_some (import_at collector.now.imports import)) }
{
    let Some(directive) = collector.imports.at(import) else {
        return Ok(false);
    };
    watchers.read(&collector.world(db, session), &directive.import)?;
    Ok(true)
}

/// Where an import stands that was tried, if something of it may still be recorded: where it stood if
/// nothing was, and else behind the ones that were indeterminate before, or in its place among them.
fn kept_at(
    imports: &PendingImports,
    import: ImportAt,
    moved: bool,
    count: usize,
) -> Option<ImportAt> {
    let kept = match import.list {
        ImportList::Unresolved if moved => ImportAt {
            list: ImportList::Indeterminate,
            index: count,
        },
        _ => import,
    };
    if imports.at(kept).is_some() {
        Some(kept)
    } else {
        None
    }
}
