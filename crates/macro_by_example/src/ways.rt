//! The ways through a pattern, step by step.

use crate::fault::{MacroFault, Stop};
use crate::matching::{Event, Finish, Matching, Waiting, Way};
use crate::rules::{Repeats, Rule, Step, kept};
use rust_fragments::{fragment_end, may_begin};
use rust_items::Span;

impl<'a> Matching<'a> {
    /// Goes on with a way that comes to a repetition.
    fn come_to(
        &mut self,
        way: Way,
        repetition: u32,
        repeats: Repeats,
        after: usize,
    ) -> Result<(), Stop> {
        let entered = self.note(way.last, Event::Enter(repetition))?;
        if repeats != Repeats::AtLeastOnce {
            self.go(after, entered)?;
        }
        self.again(repetition, way.step, entered)
    }

    /// Goes on with a way up to its next token.
    fn follow(&mut self, way: Way, at: usize) -> Result<(), Stop> {
        let Some(step) = self.rules.steps.get(way.step).copied() else {
            return Ok(());
        };
        match step {
            Step::Token { token, operator } => {
                if self.is_same(token, operator, at) {
                    self.go_over(way)?;
                }
            }
            Step::Fragment { variable, kind } => {
                if may_begin(self.sources, self.arguments, kind, at, self.end) {
                    self.waiting.push(Waiting {
                        way,
                        variable,
                        kind,
                    })?;
                }
            }
            Step::Begin {
                repetition,
                repeats,
                after,
            } => self.come_to(way, repetition, repeats, after)?,
            Step::End {
                repetition,
                repeats,
                begin,
            } => {
                self.go(way.step.saturating_add(1), way.last)?;
                if repeats != Repeats::AtMostOnce {
                    self.again(repetition, begin, way.last)?;
                }
            }
            Step::Separator {
                token,
                operator,
                after,
            } => {
                self.go(after, way.last)?;
                if self.is_same(token, operator, at) {
                    self.go_over(way)?;
                }
            }
            Step::Again { repetition, begin } => self.again(repetition, begin, way.last)?,
            Step::Finish => {
                if at == self.end {
                    self.finished = Some(Finish { last: way.last });
                }
            }
        }
        Ok(())
    }

    /// Whether a step is come to at a place for the first time.
    fn is_new(&mut self, step: usize, at: usize) -> bool {
        let mark = kept(at.saturating_add(1));
        match self.seen.get_mut(step) {
            Some(seen) => {
                let is_new = *seen != mark;
                *seen = mark;
                is_new
            }
            None => false,
        }
    }

    /// Goes on with all ways up to their next tokens.
    fn follow_all(&mut self, at: usize) -> Result<(), Stop> {
        for _ in 0..=self.work {
            let Some(way) = self.now.pop() else {
                return Ok(());
            };
            if self.work == 0 {
                break;
            }
            self.work = self.work.saturating_sub(1);
            if self.is_new(way.step, at) {
                self.follow(way, at)?;
            }
        }
        self.fail(MacroFault::TooComplex, at)
    }

    /// Takes the fragment that the only way left waits for, and answers the place behind it.
    fn take_fragment(&mut self, at: usize) -> Result<usize, Stop> {
        let Some(
            Waiting {
                way,
                variable,
                kind,
            },
        ) = self.waiting.pop()
        else {
            return self.fail(MacroFault::BadFragment, at);
        };
        if !self.waiting.is_empty() || !self.next.is_empty() {
            return self.fail(MacroFault::Ambiguous, at);
        }
        let found = fragment_end(self.alloc, self.sources, self.arguments, kind, at, self.end)?;
        let Some(to) = found else {
            return self.fail(MacroFault::BadFragment, at);
        };
        let bound = Span {
            from: kept(at),
            to: kept(to),
        };
        let last = self.note(way.last, Event::Bind(variable, bound))?;
        self.go(way.step.saturating_add(1), last)?;
        Ok(to)
    }

    /// Goes over a token with all ways that take it, or over the fragment that the only one waits
    /// for. Answers the place behind it; none, if no way is left.
    fn advance(&mut self, at: usize) -> Result<Option<usize>, Stop> {
        if !self.waiting.is_empty() {
            return Ok(Some(self.take_fragment(at)?));
        }
        if self.next.is_empty() {
            return Ok(None);
        }
        std::mem::swap(&mut self.now, &mut self.next);
        Ok(Some(at.saturating_add(1)))
    }

    /// The way that a rule's pattern takes the whole of the tokens from a place on; none, if it does
    /// not.
    pub(crate) fn rule(&mut self, rule: Rule, from: usize) -> Result<Option<Finish>, Stop> {
        self.links.clear();
        self.now.clear();
        self.next.clear();
        self.go(rule.step, None)?;
        let mut at = from;
        for _ in 0..=self.work {
            self.furthest = self.furthest.max(at);
            self.follow_all(at)?;
            if self.finished.is_some() {
                return Ok(self.finished);
            }
            match self.advance(at)? {
                Some(behind) => at = behind,
                None => return Ok(None),
            }
        }
        self.fail(MacroFault::TooComplex, at)
    }
}
