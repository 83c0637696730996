//! Where statements, attributes, visibilities and literals end.

use crate::cursor::{Cursor, is_literal};
use crate::words::Word;
use rust_lexer::TokenKind;

impl<'a> Cursor<'a> {
    /// Goes over the attributes here.
    fn attributes(&mut self) {
        for _ in self.at..self.end {
            if !self.is_mark(0, b'#') || self.kind(1) != Some(TokenKind::OpenBracket) {
                break;
            }
            self.skip(1);
            self.step();
        }
    }

    /// Whether a name stands so many places on, and no keyword.
    fn names(&self, further: usize) -> bool {
        self.word(further).names()
    }

    /// Whether the word here, and what stands behind it, begin an item.
    fn word_begins_item(&self) -> bool {
        let next = self.word(1);
        match self.word(0) {
            Word::Enum
            | Word::Extern
            | Word::Fn
            | Word::Impl
            | Word::Mod
            | Word::Pub
            | Word::Struct
            | Word::Trait
            | Word::Type
            | Word::Use => true,
            Word::Static => self.names(1) || next == Word::Mut,
            Word::Const => {
                self.names(1)
                    || matches!(
                        next,
                        Word::Underscore | Word::Unsafe | Word::Extern | Word::Fn | Word::Trait
                    )
                    || next == Word::Async && matches!(self.word(2), Word::Fn | Word::Unsafe)
            }
            Word::Async | Word::Gen => matches!(next, Word::Fn | Word::Unsafe | Word::Extern),
            Word::Unsafe => matches!(
                next,
                Word::Auto
                    | Word::Async
                    | Word::Extern
                    | Word::Fn
                    | Word::Impl
                    | Word::Mod
                    | Word::Trait
            ),
            Word::Auto => next == Word::Trait,
            Word::Safe | Word::Default => matches!(
                next,
                Word::Async
                    | Word::Const
                    | Word::Extern
                    | Word::Fn
                    | Word::Impl
                    | Word::Static
                    | Word::Type
                    | Word::Unsafe
            ),
            Word::MacroRules => self.is_mark(1, b'!') && self.names(2),
            Word::Macro | Word::Union => self.names(1),
            _ => false,
        }
    }

    /// Whether an item begins here, its attributes before it.
    pub(crate) fn begins_item(&mut self) -> bool {
        let from = self.at;
        self.attributes();
        let begins = self.word_begins_item();
        self.go_to(from);
        begins
    }

    /// Goes over a statement that is no item, without the `;` behind it.
    pub(crate) fn statement(&mut self) -> Option<()> {
        self.attributes();
        if !self.eat_word(Word::Let) {
            return self.expression();
        }
        self.pattern(true)?;
        if self.eat(b':') {
            self.ty(true)?;
        }
        if self.eat(b'=') {
            self.expression()?;
        }
        Some(())
    }

    /// Goes over what an attribute has within its brackets.
    pub(crate) fn meta(&mut self) -> Option<()> {
        if self.word(0) == Word::Unsafe && self.kind(1) == Some(TokenKind::OpenParen) {
            self.skip(1);
            self.step();
            return Some(());
        }
        self.plain_path()?;
        if self.opens(0) {
            self.step();
        } else if self.eat(b'=') {
            self.expression()?;
        }
        Some(())
    }

    /// Goes over a visibility, if one is written.
    pub(crate) fn visibility(&mut self) {
        if !self.eat_word(Word::Pub) || self.kind(0) != Some(TokenKind::OpenParen) {
            return;
        }
        let is_restricted = match self.word(1) {
            Word::In => true,
            Word::Crate | Word::SelfPath | Word::Super => {
                self.kind(2) == Some(TokenKind::CloseParen)
            }
            _ => false,
        };
        if is_restricted {
            self.step();
        }
    }

    /// Goes over a literal, which may have a sign.
    pub(crate) fn literal(&mut self) -> Option<()> {
        self.eat(b'-');
        let is_word = matches!(self.word(0), Word::True | Word::False);
        if !is_word && !self.kind(0).is_some_and(|kind| is_literal(kind)) {
            return None;
        }
        self.skip(1);
        Some(())
    }
}
