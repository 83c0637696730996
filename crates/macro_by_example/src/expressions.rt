//! What stands in a template as `${..}`.

use crate::fault::{MacroFault, Stop};
use crate::read::RulesReader;
use crate::rules::Piece;
use crate::template::Open;
use rust_lexer::{Token, TokenKind};

impl<'a> RulesReader<'a> {
    /// Takes a number that is counted where the template is written. No text has it, so it stands
    /// as an integer without digits: no name depends on it.
    fn number_piece(&mut self, word: Token) -> Result<(), Stop> {
        self.token_piece(Token {
            kind: TokenKind::Integer,
            joint: false,
            end: word.start,
            ..word
        })
    }

    /// Takes `${ignore(..)}`, whose variable stands at a place: repetitions go through it.
    fn ignored_piece(&mut self, name: Option<Token>, open: &mut Vec<Open>) -> Result<(), Stop> {
        match name.and_then(|name| self.variable_of(name)) {
            Some(variable) => self.variable_piece(variable, false, open),
            None => self.piece(Piece::Fault(MacroFault::Unsupported)),
        }
    }

    /// Takes `${..}`.
    pub(crate) fn expression_piece(&mut self, open: &mut Vec<Open>) -> Result<(), Stop> {
        let word = self.token(2);
        let further = if self.is_mark(4, b'$') { 5 } else { 4 };
        let name = self.token(further);
        self.at = self.trees.after(self.at.saturating_add(1));
        let Some(word) = word else {
            return self.piece(Piece::Fault(MacroFault::Unsupported));
        };
        match self.sources.text_of(word) {
            "ignore" => self.ignored_piece(name, open),
            "count" | "index" | "len" | "length" => self.number_piece(word),
            _ => self.piece(Piece::Fault(MacroFault::Unsupported)),
        }
    }
}
