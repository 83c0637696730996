//! A place among tokens, and what is looked at and passed there.

ghost use Rattle.std.specs.Prelude.{◌≤◌, length};

use crate::operators::operator_length;
use crate::words::{Word, word_of};
use rust_lexer::{Sources, Token, TokenKind};
use rust_trees::Trees;

/// Whether a token is a literal.
pub(crate) fn is_literal(kind: TokenKind) -> bool {
    matches!(
        kind,
        TokenKind::Integer
            | TokenKind::Float
            | TokenKind::Character
            | TokenKind::Byte
            | TokenKind::Text
            | TokenKind::ByteText
            | TokenKind::CText
            | TokenKind::RawText
            | TokenKind::RawByteText
            | TokenKind::RawCText
            | TokenKind::DocText
    )
}

/// A place among tokens, before an end. Every move stays before the end, so no place that was read
/// has to be trusted.
#[derive(Drop)]
pub(crate) struct Cursor<'a> {
    sources: &'a Sources,
    tokens: &'a [Token],
    partners: &'a [u32],
    pub(crate) at: usize,
    pub(crate) end: usize,
    ghost before: { at ≤ end },
    ghost inside: { end ≤ length tokens.now },
}

impl<'a> Cursor<'a> {
    /// A cursor among trees, at places that are brought into range.
    pub(crate) fn new(sources: &'a Sources, trees: &'a Trees, at: usize, end: usize) -> Cursor<'a> {
        let tokens = trees.tokens();
        let end = end.min(tokens.len());
        Cursor {
            sources,
            tokens,
            partners: trees.partners(),
            at: at.min(end),
            end,
        }
    }

    /// Goes over so many tokens, or to the end.
    pub(crate) fn skip(&mut self, count: usize) {
        self.at = self.at.saturating_add(count).min(self.end);
    }

    /// Goes over a token, or over a whole group.
    pub(crate) fn step(&mut self) {
        let partner = match self.partners.get(self.at) {
            Some(partner) => *partner as usize,
            None => self.at,
        };
        self.at = partner.max(self.at).saturating_add(1).min(self.end);
    }

    /// Goes back, or on, to a place.
    pub(crate) fn go_to(&mut self, at: usize) {
        self.at = at.min(self.end);
    }

    /// The token so many places on, before the end.
    pub(crate) fn peek(&self, further: usize) -> Option<Token> {
        self.tokens[self.at..self.end].get(further).copied()
    }

    /// What the token is so many places on.
    pub(crate) fn kind(&self, further: usize) -> Option<TokenKind> {
        self.peek(further).map(|token| token.kind)
    }

    /// The word so many places on. What is no name is a keyword here, so that it names nothing.
    pub(crate) fn word(&self, further: usize) -> Word {
        match self.peek(further) {
            Some(token) => match token.kind {
                TokenKind::Identifier => word_of(self.sources.bytes(token)),
                TokenKind::DollarCrate => Word::Crate,
                TokenKind::RawIdentifier | TokenKind::DocName => Word::Other,
                _ => Word::Keyword,
            },
            None => Word::Keyword,
        }
    }

    /// Whether this mark stands so many places on.
    pub(crate) fn is_mark(&self, further: usize, mark: u8) -> bool {
        self.kind(further) == Some(TokenKind::Mark(mark))
    }

    /// Whether these two marks stand so many places on, the second at once behind the first.
    pub(crate) fn is_pair(&self, further: usize, first: u8, second: u8) -> bool {
        match self.peek(further) {
            Some(token) => {
                token.is_mark(first)
                    && token.joint
                    && self.is_mark(further.saturating_add(1), second)
            }
            None => false,
        }
    }

    /// Whether `::` stands so many places on.
    pub(crate) fn is_path_mark(&self, further: usize) -> bool {
        self.is_pair(further, b':', b':')
    }

    /// Whether a group opens so many places on.
    pub(crate) fn opens(&self, further: usize) -> bool {
        matches!(
            self.kind(further),
            Some(TokenKind::OpenParen | TokenKind::OpenBracket | TokenKind::OpenBrace)
        )
    }

    /// How many tokens the operator here has.
    pub(crate) fn operator_length(&self) -> usize {
        operator_length(self.tokens, self.at)
    }

    /// Goes over this mark, if it stands here.
    pub(crate) fn eat(&mut self, mark: u8) -> bool {
        if self.is_mark(0, mark) {
            self.skip(1);
            return true;
        }
        false
    }

    /// Goes over these two marks, if they stand here.
    pub(crate) fn eat_pair(&mut self, first: u8, second: u8) -> bool {
        if self.is_pair(0, first, second) {
            self.skip(2);
            return true;
        }
        false
    }

    /// Goes over this word, if it stands here.
    pub(crate) fn eat_word(&mut self, word: Word) -> bool {
        if self.word(0) == word && word != Word::Keyword {
            self.skip(1);
            return true;
        }
        false
    }

    /// Goes over a lifetime, if one stands here.
    pub(crate) fn eat_lifetime(&mut self) -> bool {
        if self.kind(0) == Some(TokenKind::Lifetime) {
            self.skip(1);
            return true;
        }
        false
    }

    /// Goes over the group that opens here.
    pub(crate) fn group(&mut self, kind: TokenKind) -> Option<()> {
        if self.kind(0) != Some(kind) {
            return None;
        }
        self.step();
        Some(())
    }
}
