//! The rounds of a template's repetitions.

use crate::fault::{MacroFault, Stop};
use crate::origins::Origin;
use crate::rules::Piece;
use crate::transcribe::{Writer, Writing};

impl<'a> Writer<'a> {
    /// How many rounds the repetitions have that a repetition goes through, the first of which is
    /// given; each goes to its first round.
    fn enter(&mut self, drivers: usize) -> Result<u32, Stop> {
        let mut rounds = None;
        let mut next = Some(drivers);
        for _ in 0..self.rules.drivers.len() {
            let Some(driver) = next
                .and_then(|number| self.rules.drivers.get(number))
                .copied()
            else {
                break;
            };
            self.spend()?;
            let (first, count) = self.bindings.rounds(driver.repetition, driver.outer);
            if rounds.is_some_and(|other| other != count) {
                return Err(Stop::At(MacroFault::UnequalRepetitions, None));
            }
            rounds = Some(count);
            self.bindings.set_round(driver.repetition, first);
            next = driver.next;
        }
        Ok(rounds.unwrap_or(0))
    }

    /// Begins a repetition, and answers the next piece.
    pub(crate) fn begin(
        &mut self,
        at: usize,
        after: usize,
        drivers: Option<usize>,
    ) -> Result<usize, Stop> {
        let Some(first) = drivers else {
            return Err(Stop::At(MacroFault::NothingRepeats, None));
        };
        let left = self.enter(first)?;
        if left == 0 {
            return Ok(after);
        }
        self.open.push(Writing { left, drivers })?;
        Ok(at.saturating_add(1))
    }

    /// Goes to the next round of what a repetition goes through.
    fn next_rounds(&mut self, drivers: Option<usize>) -> Result<(), Stop> {
        let mut next = drivers;
        for _ in 0..self.rules.drivers.len() {
            let Some(driver) = next
                .and_then(|number| self.rules.drivers.get(number))
                .copied()
            else {
                break;
            };
            self.spend()?;
            self.bindings.next_round(driver.repetition);
            next = driver.next;
        }
        Ok(())
    }

    /// Ends a round of a repetition, and answers the next piece: behind the separator, or, where a
    /// round is left, behind the piece that begins it.
    pub(crate) fn end_round(
        &mut self,
        at: usize,
        begin: usize,
        separator: usize,
    ) -> Result<usize, Stop> {
        let after = at.saturating_add(1).saturating_add(separator);
        let Some(Writing { left, drivers }) = self.open.pop() else {
            return Ok(after);
        };
        if left <= 1 {
            return Ok(after);
        }
        self.open.push(Writing {
            left: left.saturating_sub(1),
            drivers,
        })?;
        self.next_rounds(drivers)?;
        for place in at.saturating_add(1)..after {
            if let Some(Piece::Token(number)) = self.rules.pieces.get(place).copied() {
                self.push(Origin::Template(number))?;
            }
        }
        Ok(begin.saturating_add(1))
    }
}
