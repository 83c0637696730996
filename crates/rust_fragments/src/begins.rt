//! What fragments may begin with. These are rustc's own rules: where a fragment may not begin, the
//! next way through a macro's pattern is gone.

use crate::cursor::{Cursor, is_literal};
use crate::kind::FragmentKind;
use crate::words::Word;
use rust_lexer::TokenKind;

impl<'a> Cursor<'a> {
    /// Whether a type may begin here.
    pub(crate) fn begins_type(&self) -> bool {
        match self.kind(0) {
            Some(TokenKind::OpenParen | TokenKind::OpenBracket | TokenKind::Lifetime) => true,
            Some(TokenKind::Mark(b'&' | b'*' | b'!' | b'?')) => self.is_lone_or_double(),
            Some(TokenKind::Mark(b'<')) => !self.is_pair(0, b'<', b'=')
                && !self.is_pair(0, b'<', b'-'),
            Some(TokenKind::Mark(b':')) => self.is_path_mark(0),
            _ => self.word(0).begins_type(),
        }
    }

    /// Whether the operator here is a mark alone or twice.
    fn is_lone_or_double(&self) -> bool {
        match self.operator_length() {
            1 => true,
            2 => self.kind(0) == self.kind(1),
            _ => false,
        }
    }

    /// Whether an operand may begin here.
    pub(crate) fn begins_operand(&self) -> bool {
        match self.kind(0) {
            Some(
                TokenKind::OpenParen
                | TokenKind::OpenBracket
                | TokenKind::OpenBrace
                | TokenKind::Lifetime,
            ) => true,
            Some(TokenKind::Mark(b'&' | b'|' | b'-' | b'!' | b'*' | b'<')) =>
                self.is_lone_or_double(),
            Some(TokenKind::Mark(b'#')) => true,
            Some(TokenKind::Mark(b'.')) => self.operator_length() > 1,
            Some(TokenKind::Mark(b':')) => self.is_path_mark(0),
            Some(kind) if is_literal(kind) => true,
            _ => self.word(0).begins_expression(),
        }
    }

    /// Whether a pattern may begin here.
    fn begins_pattern(&self, with_alternatives: bool) -> bool {
        match self.kind(0) {
            Some(TokenKind::OpenParen | TokenKind::OpenBracket) => true,
            Some(TokenKind::Mark(b'&' | b'<')) => self.is_lone_or_double(),
            Some(TokenKind::Mark(b'-')) => self.operator_length() == 1,
            Some(TokenKind::Mark(b'|')) => with_alternatives && self.operator_length() == 1,
            Some(TokenKind::Mark(b'.')) => self.operator_length() > 1 && !self.is_mark(2, b'='),
            Some(TokenKind::Mark(b':')) => self.is_path_mark(0),
            Some(kind) => is_literal(kind) || self.is_any_name(),
            None => false,
        }
    }

    /// Whether an identifier stands here, be it a keyword.
    pub(crate) fn is_any_name(&self) -> bool {
        matches!(
            self.kind(0),
            Some(
                TokenKind::Identifier
                    | TokenKind::RawIdentifier
                    | TokenKind::DocName
                    | TokenKind::DollarCrate
            )
        )
    }

    /// Whether a token stands here that closes nothing.
    fn is_within(&self) -> bool {
        !matches!(
            self.kind(0),
            None | Some(TokenKind::CloseParen | TokenKind::CloseBracket | TokenKind::CloseBrace)
        )
    }

    /// Whether a literal may begin here.
    fn begins_literal(&self) -> bool {
        match self.kind(0) {
            Some(TokenKind::Mark(b'-')) => self.operator_length() == 1,
            Some(kind) if is_literal(kind) => true,
            _ => matches!(self.word(0), Word::True | Word::False),
        }
    }

    /// Whether a fragment may begin here.
    pub(crate) fn begins(&self, kind: FragmentKind) -> bool {
        match kind {
            FragmentKind::Tree | FragmentKind::Item | FragmentKind::Statement => self.is_within(),
            FragmentKind::Visibility => {
                self.is_mark(0, b',') || self.is_any_name() || self.begins_type()
            }
            FragmentKind::Block => self.kind(0) == Some(TokenKind::OpenBrace),
            FragmentKind::Identifier => self.is_any_name() && self.word(0) != Word::Underscore,
            FragmentKind::Lifetime => self.kind(0) == Some(TokenKind::Lifetime),
            FragmentKind::Literal => self.begins_literal(),
            FragmentKind::Path | FragmentKind::Meta => self.is_any_name() || self.is_path_mark(0),
            FragmentKind::Type => self.begins_type(),
            FragmentKind::Pattern => self.begins_pattern(true),
            FragmentKind::PatternParameter => self.begins_pattern(false),
            FragmentKind::Expression => self.begins_operand(),
        }
    }
}
