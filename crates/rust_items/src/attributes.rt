//! Attributes and visibilities.

use crate::fault::Stop;
use crate::item::{Attribute, Span, Visibility};
use crate::reader::{Reader, span};
use crate::words::Word;
use rust_lexer::TokenKind;

impl<'a> Reader<'a> {
    /// Whether an attribute begins here, and how many marks it begins with.
    fn attribute_marks(&self, is_inner: bool) -> Option<usize> {
        if !self.is_mark(0, b'#') {
            return None;
        }
        let marks = if is_inner { 2 } else { 1 };
        if is_inner && !self.is_mark(1, b'!') {
            return None;
        }
        if self.kind(marks) == Some(TokenKind::OpenBracket) {
            Some(marks)
        } else {
            None
        }
    }

    /// Takes the attributes that stand here, of one sort.
    pub(crate) fn attributes(&mut self, is_inner: bool) -> Result<Span, Stop> {
        let from = self.list.attributes.len();
        for _ in self.at..self.end {
            let Some(marks) = self.attribute_marks(is_inner) else {
                break;
            };
            self.skip(marks);
            let tokens = self.group()?;
            self.list.attributes.push(Attribute { is_inner, tokens })?;
        }
        Ok(span(from, self.list.attributes.len()))
    }

    /// Whether what restricts a visibility stands in the parentheses here.
    fn is_restriction(&self) -> bool {
        match self.word(1) {
            Word::In => true,
            Word::Crate | Word::SelfPath | Word::Super => {
                self.kind(2) == Some(TokenKind::CloseParen)
            }
            _ => false,
        }
    }

    /// Takes the visibility here, if one is written.
    pub(crate) fn visibility(&mut self) -> Result<Visibility, Stop> {
        if !self.eat_word(Word::Pub) {
            return Ok(Visibility::Private);
        }
        if self.is_parenthesized() && self.is_restriction() {
            return Ok(Visibility::Restricted(self.group()?));
        }
        Ok(Visibility::Public)
    }
}
