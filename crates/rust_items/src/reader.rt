//! A place among tokens, and what is looked at and passed there.

ghost use Rattle.std.specs.Prelude.{◌≤◌, length};

use crate::fault::{ItemFault, Stop};
use crate::item::{ItemList, Span};
use crate::words::{Word, word_of};
use rust_lexer::{Sources, Token, TokenKind};
use rust_trees::Trees;
use std::alloc::Global;

/// A place as it is kept: there are fewer than 2^32 tokens.
pub(crate) fn kept(place: usize) -> u32 {
    if place < 0xffff_ffff {
        place as u32
    } else {
        0xffff_ffff
    }
}

/// A span of places.
pub(crate) fn span(from: usize, to: usize) -> Span {
    Span {
        from: kept(from),
        to: kept(to),
    }
}

/// A place among tokens, before an end, and what has been read. Every move stays before the end,
/// so no place that was read has to be trusted.
#[derive(Drop)]
pub(crate) struct Reader<'a> {
    pub(crate) alloc: Global,
    pub(crate) sources: &'a Sources,
    pub(crate) tokens: &'a [Token],
    pub(crate) partners: &'a [u32],
    pub(crate) at: usize,
    /// The end of the innermost open body.
    pub(crate) end: usize,
    pub(crate) list: ItemList,
    ghost before: { at ≤ end },
    ghost inside: { end ≤ length tokens.now },
}

impl<'a> Reader<'a> {
    /// A reader of trees, at places that are brought into range.
    pub(crate) fn new(
        alloc: Global,
        sources: &'a Sources,
        trees: &'a Trees,
        at: usize,
        end: usize,
    ) -> Reader<'a> {
        let mut reader = Reader {
            alloc,
            sources,
            tokens: trees.tokens(),
            partners: trees.partners(),
            at: 0,
            end: 0,
            list: ItemList::new(alloc),
        };
        reader.set_place(at, end);
        reader
    }

    /// Stops here.
    pub(crate) fn fail<T>(&self, fault: ItemFault) -> Result<T, Stop> {
        Err(Stop::Here(fault))
    }

    /// Goes to a place before an end; both are brought into range.
    pub(crate) fn set_place(&mut self, at: usize, end: usize) {
        let end = end.min(self.tokens.len());
        let at = at.min(end);
        self.end = end;
        self.at = at;
    }

    /// Goes over so many tokens, or to the end.
    pub(crate) fn skip(&mut self, count: usize) {
        self.at = self.at.saturating_add(count).min(self.end);
    }

    /// The place of the partner of the delimiter here.
    pub(crate) fn partner(&self) -> usize {
        match self.partners.get(self.at) {
            Some(partner) => *partner as usize,
            None => self.at,
        }
    }

    /// Goes over a token, or over a whole group.
    pub(crate) fn step(&mut self) {
        let after = self.partner().max(self.at).saturating_add(1);
        self.at = after.min(self.end);
    }

    /// The token so many places on, before the end.
    pub(crate) fn peek(&self, further: usize) -> Option<Token> {
        self.tokens[self.at..self.end].get(further).copied()
    }

    /// What the token is so many places on.
    pub(crate) fn kind(&self, further: usize) -> Option<TokenKind> {
        self.peek(further).map(|token| token.kind)
    }

    /// The word so many places on.
    pub(crate) fn word(&self, further: usize) -> Word {
        match self.peek(further) {
            Some(token) if token.kind == TokenKind::Identifier => {
                word_of(self.sources.bytes(token))
            }
            _ => Word::Other,
        }
    }

    /// Whether this mark stands so many places on.
    pub(crate) fn is_mark(&self, further: usize, mark: u8) -> bool {
        self.kind(further) == Some(TokenKind::Mark(mark))
    }

    /// Whether these two marks stand here, the second at once behind the first.
    pub(crate) fn is_pair(&self, further: usize, first: u8, second: u8) -> bool {
        match self.peek(further) {
            Some(token) => {
                token.is_mark(first)
                    && token.joint
                    && self.is_mark(further.saturating_add(1), second)
            }
            None => false,
        }
    }

    /// Whether `::` stands so many places on.
    pub(crate) fn is_path_mark(&self, further: usize) -> bool {
        self.is_pair(further, b':', b':')
    }

    /// Whether a brace opens here.
    pub(crate) fn is_braced(&self) -> bool {
        self.kind(0) == Some(TokenKind::OpenBrace)
    }

    /// Whether a parenthesis opens here.
    pub(crate) fn is_parenthesized(&self) -> bool {
        self.kind(0) == Some(TokenKind::OpenParen)
    }

    /// Whether a group opens so many places on.
    pub(crate) fn opens(&self, further: usize) -> bool {
        matches!(
            self.kind(further),
            Some(TokenKind::OpenParen | TokenKind::OpenBracket | TokenKind::OpenBrace)
        )
    }

    /// Whether what stands so many places on may be a name.
    pub(crate) fn names(&self, further: usize) -> bool {
        match self.peek(further) {
            Some(token) => token.is_name() && self.word(further).names(),
            None => false,
        }
    }

    /// Goes over this mark, if it stands here.
    pub(crate) fn eat(&mut self, mark: u8) -> bool {
        if self.is_mark(0, mark) {
            self.skip(1);
            return true;
        }
        false
    }

    /// Goes over this word, if it stands here.
    pub(crate) fn eat_word(&mut self, word: Word) -> bool {
        if self.word(0) == word {
            self.skip(1);
            return true;
        }
        false
    }

    /// Takes the token here, whatever it is.
    pub(crate) fn token(&mut self, fault: ItemFault) -> Result<Token, Stop> {
        match self.peek(0) {
            Some(token) => {
                self.skip(1);
                Ok(token)
            }
            None => self.fail(fault),
        }
    }

    /// Takes the name here.
    pub(crate) fn name(&mut self) -> Result<Token, Stop> {
        if self.names(0) {
            return self.token(ItemFault::WantedName);
        }
        self.fail(ItemFault::WantedName)
    }

    /// Takes the name here, or none for `_`.
    pub(crate) fn name_or_none(&mut self) -> Result<Option<Token>, Stop> {
        if self.eat_word(Word::Underscore) {
            return Ok(None);
        }
        Ok(Some(self.name()?))
    }

    /// What stands after `as`, if it stands here: a name or `_`.
    pub(crate) fn alias(&mut self) -> Result<Option<Token>, Stop> {
        if !self.eat_word(Word::As) {
            return Ok(None);
        }
        if self.word(0) == Word::Underscore {
            return Ok(Some(self.token(ItemFault::WantedName)?));
        }
        Ok(Some(self.name()?))
    }

    /// Goes over a group, and answers the places within.
    pub(crate) fn group(&mut self) -> Result<Span, Stop> {
        if !self.opens(0) {
            return self.fail(ItemFault::WantedGroup);
        }
        let from = self.at.saturating_add(1);
        self.step();
        Ok(span(from, self.at.saturating_sub(1)))
    }
}
