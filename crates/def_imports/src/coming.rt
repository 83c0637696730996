//! The turns that are to come.
ghost use Rattle.std.specs.Prelude.{◌≡◌, ◌∷◌, ◌+◌, false, Some, IfSome, IsTrue};
ghost use Rattle.std.specs.Option.{ForSome};
ghost use Rattle.def_imports.specs.Sweeps.{GoesOnAfter, IsLeft, first_turn, place_of, swept, swept_turns};

use crate::turns::Turn;
use std::collections::BTreeSet;

/// What is left of a first pass over all imports that are unresolved: at least one turn.
#[derive(Clone, Copy)]
pub struct Sweep {
    /// How many imports there are.
    pub(crate) len: usize,
    /// How many come after the next one.
    pub(crate) rest: usize,
}

impl Sweep {
    /// A pass over so many imports, if there are any.
    pub(crate) fn new(len: usize) -> Option<Sweep>
        ensures turns { swept result ≡ swept_turns len len }
        ensures rest { IfSome result (λ sweep. sweep.rest + 1 ≡ sweep.len) }
    {
        match len.checked_sub(1) {
            Some(rest) => Some(Sweep { len, rest }),
            None => None,
        }
    }

    /// The place of the next import.
    fn place(self) -> usize
        ensures { result ≡ place_of self.len self.rest }
    {
        self.len.saturating_sub(self.rest).saturating_sub(1)
    }

    /// The next turn.
    pub(crate) fn next(self) -> Turn
        ensures { result ≡ first_turn (place_of self.len self.rest) }
    {
        Turn {
            pass: 1,
            is_indeterminate: false,
            index: self.place(),
        }
    }

    /// What is left after the next turn, if anything is.
    pub(crate) fn others(self) -> Option<Sweep>
        ensures turns { swept (Some self) ≡ first_turn (place_of self.len self.rest) ∷ swept result }
        ensures rest { IfSome result (λ others. (others.len ≡ self.len) × (others.rest + 1 ≡ self.rest)) }
    {
        match self.rest.checked_sub(1) {
            Some(rest) => Some(Sweep {
                len: self.len,
                rest,
            }),
            None => None,
        }
    }

    /// Whether a turn is one of those that are left.
    pub(crate) fn has(self, turn: Turn) -> bool
        ensures there { IsTrue result → IsLeft self.len self.rest turn }
        ensures gone { result ≡ false → IsLeft self.len self.rest turn → ⊥ }
    {
        turn.pass == 1
            && !turn.is_indeterminate
            && self.place() <= turn.index
            && turn.index < self.len
    }
}

/// The turns that are to come, of imports that woke.
#[derive(Drop)]
pub struct Turns {
    /// A first pass over all, which needs no tree.
    pub(crate) sweep: Option<Sweep>,
    /// The turns after it.
    pub(crate) coming: BTreeSet<Turn>,
    /// The turn that came last.
    pub(crate) last: Turn,
    ghost swept: { ForSome sweep (GoesOnAfter last) },
}
