//! What the variables of a rule are bound to.

use crate::fault::Stop;
use crate::matching::Event;
use crate::rules::{Rule, kept};
use rust_items::Span;
use std::alloc::Global;

/// What the variables of a rule are bound to, and the rounds of repetitions that are being written.
/// The rounds of a repetition are numbered through all rounds of what is around it.
#[derive(Drop)]
pub(crate) struct Bindings {
    /// For each repetition, how many rounds it had before each time that it was come to.
    starts: Vec<Vec<u32>>,
    /// How many it has in all.
    rounds: Vec<u32>,
    /// The one that is being written.
    current: Vec<u32>,
    /// For each variable the places that it is bound to in each round.
    values: Vec<Vec<Span>>,
}

impl Bindings {
    /// The bindings of a rule that events make.
    pub(crate) fn new(alloc: Global, rule: Rule, events: &[Event]) -> Result<Bindings, Stop> {
        let mut starts: Vec<Vec<u32>> = Vec::with_capacity(alloc, rule.repetitions)?;
        let mut values: Vec<Vec<Span>> = Vec::with_capacity(alloc, rule.variables)?;
        for _ in 0..rule.repetitions {
            starts.push(Vec::new(alloc))?;
        }
        for _ in 0..rule.variables {
            values.push(Vec::new(alloc))?;
        }
        let mut bindings = Bindings {
            starts,
            rounds: vec![in alloc; 0u32; rule.repetitions]?,
            current: vec![in alloc; 0u32; rule.repetitions]?,
            values,
        };
        for event in events.iter() {
            bindings.note(*event)?;
        }
        Ok(bindings)
    }

    /// Takes what happened next.
    fn note(&mut self, event: Event) -> Result<(), Stop> {
        match event {
            Event::Enter(repetition) => {
                let before = self.count(repetition);
                if let Some(starts) = self.starts.get_mut(repetition as usize) {
                    starts.push(before)?;
                }
            }
            Event::Round(repetition) => {
                if let Some(rounds) = self.rounds.get_mut(repetition as usize) {
                    *rounds = rounds.saturating_add(1);
                }
            }
            Event::Bind(variable, places) => {
                if let Some(values) = self.values.get_mut(variable as usize) {
                    values.push(places)?;
                }
            }
        }
        Ok(())
    }

    /// How many rounds a repetition has in all.
    fn count(&self, repetition: u32) -> u32 {
        match self.rounds.get(repetition as usize) {
            Some(rounds) => *rounds,
            None => 0,
        }
    }

    /// The round of a repetition that is being written, or of what is around all.
    fn current(&self, repetition: Option<u32>) -> usize {
        match repetition.and_then(|number| self.current.get(number as usize)) {
            Some(round) => *round as usize,
            None => 0,
        }
    }

    /// The first round of a repetition in the current one of what is around it, and how many there
    /// are.
    pub(crate) fn rounds(&self, repetition: u32, outer: Option<u32>) -> (u32, u32) {
        let nth = self.current(outer);
        let Some(starts) = self.starts.get(repetition as usize) else {
            return (0, 0);
        };
        let Some(first) = starts.get(nth) else {
            return (0, 0);
        };
        let after = match starts.get(nth.saturating_add(1)) {
            Some(after) => *after,
            None => self.count(repetition),
        };
        (*first, after.saturating_sub(*first))
    }

    /// Makes a round of a repetition the current one.
    pub(crate) fn set_round(&mut self, repetition: u32, round: u32) {
        if let Some(current) = self.current.get_mut(repetition as usize) {
            *current = round;
        }
    }

    /// Makes the next round of a repetition the current one.
    pub(crate) fn next_round(&mut self, repetition: u32) {
        let round = kept(self.current(Some(repetition)).saturating_add(1));
        self.set_round(repetition, round);
    }

    /// The places that a variable of a repetition is bound to in the current round.
    pub(crate) fn value(&self, variable: u32, repetition: Option<u32>) -> Option<Span> {
        let values = self.values.get(variable as usize)?;
        values.get(self.current(repetition)).copied()
    }
}
