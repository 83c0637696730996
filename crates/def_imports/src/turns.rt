//! When imports are tried that wake.
ghost use Rattle.std.specs.Prelude.{◌≡◌, ◌<◌, IfNone, IfSome, OnOk};
ghost use Rattle.def_imports.specs.Turns.{WakesAfter, is_behind, is_indeterminate};

use crate::coming::{Sweep, Turns};
use def_steps::{ImportAt, ImportList};
use std::alloc::{AllocError, Global};
use std::collections::BTreeSet;

/// A turn of an import. Turns come in this order: pass by pass, those that are unresolved first, and
/// then by their places.
#[derive(Clone, Copy, PartialEq, Eq, PartialOrd, Ord)]
pub struct Turn {
    pub(crate) pass: usize,
    pub(crate) is_indeterminate: bool,
    pub(crate) index: usize,
}

/// Whether a list is that of the imports that are indeterminate.
fn is_indeterminate(list: ImportList) -> bool
    ensures { result ≡ is_indeterminate list }
{
    match list {
        ImportList::Unresolved => false,
        ImportList::Indeterminate => true,
    }
}

/// Whether a pass comes to an import after it came to the one that had a turn.
fn is_behind(last: Turn, import: ImportAt) -> bool
    ensures { result ≡ is_behind last.is_indeterminate last.index (is_indeterminate import.list) import.index }
{
    match (last.is_indeterminate, is_indeterminate(import.list)) {
        (false, true) => true,
        (true, false) => false,
        _ => last.index < import.index,
    }
}

/// The turn of an import that wakes after the one that had the last turn: in the pass that is under
/// way, where that has still to come to it, and else in the next.
fn turn_after(last: Turn, import: ImportAt) -> Turn
    ensures { WakesAfter last import result }
{
    Turn {
        pass: if is_behind(last, import) {
            last.pass
        } else {
            last.pass.saturating_add(1)
        },
        is_indeterminate: is_indeterminate(import.list),
        index: import.index,
    }
}

impl Turns {
    ghost use Rattle.def_imports.specs.Turns.{IsNext, Wakes, coming_turns, turns_to_come};
    ghost use Rattle.def_imports.specs.Sweeps.{swept_turns};

    /// A first turn for each of so many imports that are unresolved, and none for others.
    pub fn new(alloc: Global, unresolved: usize) -> Self
        ensures { coming_turns result ≡ swept_turns unresolved unresolved }
    {
        Turns {
            sweep: Sweep::new(unresolved),
            coming: BTreeSet::new(alloc),
            // Those that wake now have their turns in the pass after this.
            last: Turn {
                pass: 0,
                is_indeterminate: true,
                index: usize::MAX,
            },
        }
    }

    /// Takes the next turn.
    pub fn next(&mut self) -> Option<ImportAt>
        ensures fewer { IfSome result (λ import. turns_to_come self.new < turns_to_come self.old) }
        ensures next { IfSome result (IsNext self.old self.new) }
        ensures none { IfNone result (turns_to_come self.old ≡ 0) }
    {
        let turn = match self.sweep {
            Some(sweep) => {
                self.sweep = sweep.others();
                sweep.next()
            }
            None => self.coming.pop_first()?,
        };
        self.last = turn;
        Some(ImportAt {
            list: if turn.is_indeterminate {
                ImportList::Indeterminate
            } else {
                ImportList::Unresolved
            },
            index: turn.index,
        })
    }

    /// Wakes an import: it has a turn in the pass that is under way, where it comes after the one
    /// that had the last turn, and else in the next pass.
    pub fn wake(&mut self, import: ImportAt) -> Result<(), AllocError>
        ensures woken { OnOk result (Wakes self.old self.new import) }
    {
        let turn = turn_after(self.last, import);
        if let Some(sweep) = self.sweep {
            if sweep.has(turn) {
                return Ok(());
            }
        }
        self.coming.insert(turn)?;
        Ok(())
    }

    /// Wakes all imports of a list, which has so many places.
    pub fn wake_list(&mut self, list: ImportList, len: usize) -> Result<(), AllocError> {
        for index in 0..len {
            self.wake(ImportAt { list, index })?;
        }
        Ok(())
    }
}
