//! From a rule's left side to the steps of its pattern.

use crate::fault::{MacroFault, Stop};
use crate::read::{Repetition, RulesReader, Variable};
use crate::rules::{Repeats, Step, kept};
use rust_fragments::{FragmentKind, fragment_kind, operator_length};
use rust_lexer::{Token, TokenKind};

/// A repetition that is being read: its first step, and the end of what is around it.
#[derive(Clone, Copy)]
struct Open {
    begin: usize,
    outer_end: usize,
    repetition: u32,
}

impl<'a> RulesReader<'a> {
    /// Adds a step.
    fn step(&mut self, step: Step) -> Result<(), Stop> {
        self.rules.steps.push(step)?;
        Ok(())
    }

    /// Adds a step for each token of an operator, but for some that it begins with.
    fn operator_steps(&mut self, at: usize, from: usize, length: usize) -> Result<(), Stop> {
        for nth in from..length {
            if let Some(token) = self.trees.get(at.saturating_add(nth)) {
                let operator = if nth == 0 { length } else { 0 };
                self.step(Step::Token { token, operator })?;
            }
        }
        Ok(())
    }

    /// Whether a `|` stands behind the variable here, or behind the repetition that ends with it.
    /// Then a pattern is one without alternatives, as it was in old editions.
    fn is_before_bar(&self) -> bool {
        let behind = self.at.saturating_add(4);
        let place = if behind < self.end {
            behind
        } else {
            self.end.saturating_add(1)
        };
        self.trees
            .get(place)
            .is_some_and(|token| token.is_mark(b'|'))
    }

    /// The kind of fragment that is written so many places on.
    fn fragment_kind(&self, further: usize) -> Option<FragmentKind> {
        fragment_kind(self.sources.text_of(self.token(further)?))
    }

    /// Takes the variable here, whose name is a token.
    fn variable(&mut self, name: Token, open: &[Open]) -> Result<(), Stop> {
        let Some(kind) = self.fragment_kind(3) else {
            return self.fail(MacroFault::WantedFragment, self.at);
        };
        if !self.is_mark(2, b':') {
            return self.fail(MacroFault::WantedFragment, self.at);
        }
        let kind = if kind == FragmentKind::Pattern && self.is_before_bar() {
            FragmentKind::PatternParameter
        } else {
            kind
        };
        let number = kept(self.names.len());
        let text = String::from_str(self.alloc, self.sources.text_of(name))?;
        let variable = Variable {
            number,
            kind,
            repetition: open.last().map(|around| around.repetition),
            depth: open.len(),
        };
        if self.names.insert(text, variable)?.is_some() {
            return self.fail(MacroFault::DuplicateVariable, self.at);
        }
        self.skip(4);
        self.step(Step::Fragment {
            variable: number,
            kind,
        })
    }

    /// Opens the repetition here.
    fn open_repetition(&mut self, open: &mut Vec<Open>) -> Result<(), Stop> {
        let repetition = kept(self.repetitions.len());
        let outer = open.last().map(|around| around.repetition);
        self.repetitions.push(Repetition {
            outer,
            driving: None,
        })?;
        open.push(Open {
            begin: self.rules.steps.len(),
            outer_end: self.end,
            repetition,
        })?;
        let group = self.at.saturating_add(1);
        self.enter(group);
        self.step(Step::Begin {
            repetition,
            repeats: Repeats::Any,
            after: 0,
        })
    }

    /// Closes the repetition whose parentheses end here.
    fn close_repetition(&mut self, done: Open) -> Result<(), Stop> {
        let (length, repeats) = self.repeats(done.outer_end)?;
        let Open {
            begin,
            repetition,
            ..
        } = done;
        if self.rules.steps.len() == begin.saturating_add(1) {
            return self.fail(MacroFault::EmptyRepetition, self.end);
        }
        let at = self.end.saturating_add(1);
        match self.trees.get(at) {
            Some(token) if length > 0 => {
                let after = self
                    .rules
                    .steps
                    .len()
                    .saturating_add(length)
                    .saturating_add(1);
                self.step(Step::Separator {
                    token,
                    operator: length,
                    after,
                })?;
                self.operator_steps(at, 1, length)?;
                self.step(Step::Again { repetition, begin })?;
            }
            _ => self.step(Step::End {
                repetition,
                repeats,
                begin,
            })?,
        }
        let after = self.rules.steps.len();
        if let Some(step) = self.rules.steps.get_mut(begin) {
            *step = Step::Begin {
                repetition,
                repeats,
                after,
            };
        }
        self.at = at.saturating_add(length).saturating_add(1);
        self.end = done.outer_end;
        Ok(())
    }

    /// Takes what begins with `$`.
    fn pattern_dollar(&mut self, open: &mut Vec<Open>) -> Result<(), Stop> {
        let Some(next) = self.token(1) else {
            return self.fail(MacroFault::WantedFragment, self.at);
        };
        if next.kind == TokenKind::OpenParen {
            return self.open_repetition(open);
        }
        if !next.is_name() {
            return self.fail(MacroFault::WantedFragment, self.at);
        }
        if self.sources.text_of(next) != "crate" {
            return self.variable(next, open.as_slice());
        }
        self.skip(2);
        let token = Token {
            kind: TokenKind::DollarCrate,
            ..next
        };
        self.step(Step::Token { token, operator: 1 })
    }

    /// Whether an attribute that is written as a comment stands here. Patterns pass over these.
    fn is_documentation(&self) -> bool {
        self.is_mark(0, b'#')
            && self
                .token(2)
                .is_some_and(|token| token.kind == TokenKind::DocName)
    }

    /// Takes what stands here.
    fn pattern_token(&mut self, open: &mut Vec<Open>) -> Result<(), Stop> {
        if self.is_mark(0, b'$') {
            return self.pattern_dollar(open);
        }
        if self.is_documentation() {
            self.at = self.trees.after(self.at.saturating_add(1));
            return Ok(());
        }
        let at = self.at;
        let length = operator_length(self.trees.tokens(), at);
        self.skip(length);
        self.operator_steps(at, 0, length)
    }

    /// Takes the pattern within the group that the reader is in.
    pub(crate) fn pattern(&mut self) -> Result<(), Stop> {
        let mut open: Vec<Open> = Vec::new(self.alloc);
        // Each turn goes on by a token at least.
        for _ in 0..=self.trees.len() {
            if self.at < self.end {
                self.pattern_token(&mut open)?;
                continue;
            }
            let Some(done) = open.pop() else {
                break;
            };
            self.close_repetition(done)?;
        }
        self.step(Step::Finish)
    }
}
