//! From a rule's right side to the pieces of its template.

use crate::fault::{MacroFault, Stop};
use crate::read::{RulesReader, Variable};
use crate::rules::{Driver, Piece, kept};
use rust_lexer::{Token, TokenKind};

/// A repetition that is being read: its first piece, the end of what is around it, and the first
/// of what it goes through.
#[derive(Clone, Copy)]
pub(crate) struct Open {
    begin: usize,
    outer_end: usize,
    drivers: Option<usize>,
}

/// The place of a repetition among those of the rule.
fn place_of(repetition: Option<u32>) -> Option<usize> {
    match repetition {
        Some(number) => Some(number as usize),
        None => None,
    }
}

impl<'a> RulesReader<'a> {
    /// Adds a piece.
    pub(crate) fn piece(&mut self, piece: Piece) -> Result<(), Stop> {
        self.rules.pieces.push(piece)?;
        Ok(())
    }

    /// Adds a token.
    pub(crate) fn token_piece(&mut self, token: Token) -> Result<(), Stop> {
        let number = self.rules.tokens.len();
        self.piece(Piece::Token(number))?;
        self.rules.tokens.push(token)?;
        Ok(())
    }

    /// Whether what repetitions go through has become far more than the rules are long.
    fn is_entangled(&self) -> bool {
        let length = self
            .rules
            .pieces
            .len()
            .saturating_add(self.rules.steps.len());
        self.rules.drivers.len() / 64 > length.saturating_add(1024)
    }

    /// Makes the innermost repetitions of the template go through those of the pattern that are
    /// around a variable, each through the one that is as deep.
    fn drive(&mut self, variable: Variable, open: &mut Vec<Open>) -> Result<(), Stop> {
        let mut inner = place_of(variable.repetition);
        for level in (0..variable.depth).rev() {
            let (Some(number), Some(holder)) = (inner, open.get_mut(level)) else {
                break;
            };
            let Some(repetition) = self.repetitions.get_mut(number) else {
                break;
            };
            // Then those around it are gone through as well.
            if repetition.driving == Some(holder.begin) {
                break;
            }
            repetition.driving = Some(holder.begin);
            let driver = Driver {
                repetition: kept(number),
                outer: repetition.outer,
                next: holder.drivers,
            };
            inner = place_of(repetition.outer);
            holder.drivers = Some(self.rules.drivers.len());
            self.rules.drivers.push(driver)?;
        }
        if self.is_entangled() {
            return self.fail(MacroFault::TooComplex, self.at);
        }
        Ok(())
    }

    /// The variable that a token names.
    pub(crate) fn variable_of(&self, name: Token) -> Option<Variable> {
        self.names.get(self.sources.text_of(name)).copied()
    }

    /// Takes a variable, which is written or alone gone through.
    pub(crate) fn variable_piece(
        &mut self,
        variable: Variable,
        is_written: bool,
        open: &mut Vec<Open>,
    ) -> Result<(), Stop> {
        if variable.depth > open.len() {
            return self.piece(Piece::Fault(MacroFault::StillRepeats));
        }
        self.drive(variable, open)?;
        if !is_written {
            return Ok(());
        }
        self.piece(Piece::Variable {
            variable: variable.number,
            repetition: variable.repetition,
            kind: variable.kind,
        })
    }

    /// Opens the repetition here.
    fn open_template_repetition(&mut self, open: &mut Vec<Open>) -> Result<(), Stop> {
        open.push(Open {
            begin: self.rules.pieces.len(),
            outer_end: self.end,
            drivers: None,
        })?;
        let group = self.at.saturating_add(1);
        self.enter(group);
        self.piece(Piece::Begin {
            after: 0,
            drivers: None,
        })
    }

    /// Closes the repetition whose parentheses end here.
    fn close_template_repetition(&mut self, done: Open) -> Result<(), Stop> {
        let (separator, _) = self.repeats(done.outer_end)?;
        self.piece(Piece::End {
            begin: done.begin,
            separator,
        })?;
        let at = self.end.saturating_add(1);
        for nth in 0..separator {
            if let Some(token) = self.trees.get(at.saturating_add(nth)) {
                let joint = token.joint && nth.saturating_add(1) < separator;
                self.token_piece(Token { joint, ..token })?;
            }
        }
        let after = self.rules.pieces.len();
        if let Some(piece) = self.rules.pieces.get_mut(done.begin) {
            *piece = Piece::Begin {
                after,
                drivers: done.drivers,
            };
        }
        self.at = at.saturating_add(separator).saturating_add(1);
        self.end = done.outer_end;
        Ok(())
    }

    /// Takes the name behind a `$`: `crate`, a variable, or what is written as it is.
    fn dollar_name(
        &mut self,
        dollar: Token,
        name: Token,
        open: &mut Vec<Open>,
    ) -> Result<(), Stop> {
        if self.sources.text_of(name) == "crate" {
            self.skip(2);
            return self.token_piece(Token {
                kind: TokenKind::DollarCrate,
                ..name
            });
        }
        match self.variable_of(name) {
            Some(variable) => {
                self.skip(2);
                self.variable_piece(variable, true, open)
            }
            None => {
                self.skip(1);
                self.token_piece(dollar)
            }
        }
    }

    /// Takes what stands here.
    fn template_token(&mut self, open: &mut Vec<Open>) -> Result<(), Stop> {
        let Some(token) = self.token(0) else {
            self.at = self.end;
            return Ok(());
        };
        let next = self.token(1);
        if !token.is_mark(b'$') {
            // What a variable stands for does not follow at once.
            let joint = token.joint && !self.is_mark(1, b'$');
            self.skip(1);
            return self.token_piece(Token { joint, ..token });
        }
        match next {
            Some(next) if next.kind == TokenKind::OpenParen => self.open_template_repetition(open),
            Some(next) if next.kind == TokenKind::OpenBrace => self.expression_piece(open),
            Some(next) if next.is_name() => self.dollar_name(token, next, open),
            Some(next) if next.is_mark(b'$') => {
                self.skip(2);
                self.token_piece(next)
            }
            _ => {
                self.skip(1);
                self.token_piece(token)
            }
        }
    }

    /// Takes the template within the group that the reader is in.
    pub(crate) fn template(&mut self) -> Result<(), Stop> {
        let mut open: Vec<Open> = Vec::new(self.alloc);
        // Each turn goes on by a token at least.
        for _ in 0..=self.trees.len() {
            if self.at < self.end {
                self.template_token(&mut open)?;
                continue;
            }
            let Some(done) = open.pop() else {
                break;
            };
            self.close_template_repetition(done)?;
        }
        Ok(())
    }
}
