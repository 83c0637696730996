//! What is passed over: generics, types and expressions, up to what follows them.

use crate::fault::{ItemFault, Stop};
use crate::item::Span;
use crate::reader::Reader;
use crate::words::Word;
use rust_lexer::TokenKind;

impl<'a> Reader<'a> {
    /// Goes over a token or a group of a type, and counts the angles that are open; `->` is one.
    pub(crate) fn step_in_type(&mut self, depth: &mut usize) {
        match self.kind(0) {
            Some(TokenKind::Mark(b'-')) if self.is_pair(0, b'-', b'>') => self.skip(2),
            Some(TokenKind::Mark(b'<')) => {
                *depth = depth.saturating_add(1);
                self.skip(1);
            }
            Some(TokenKind::Mark(b'>')) => {
                *depth = depth.saturating_sub(1);
                self.skip(1);
            }
            _ => self.step(),
        }
    }

    /// Goes over `<..>`, if it stands here.
    pub(crate) fn generics(&mut self) -> Result<(), Stop> {
        if !self.is_mark(0, b'<') {
            return Ok(());
        }
        let mut depth = 0;
        for _ in self.at..self.end {
            self.step_in_type(&mut depth);
            if depth == 0 {
                return Ok(());
            }
        }
        self.fail(ItemFault::WantedAngle)
    }

    /// Goes to a `;` or a `{` outside of groups and angles.
    fn to_body(&mut self) -> Result<(), Stop> {
        let mut depth = 0;
        for _ in self.at..self.end {
            if depth == 0 && (self.is_mark(0, b';') || self.is_braced()) {
                return Ok(());
            }
            if self.word(0).only_begins_items() {
                break;
            }
            self.step_in_type(&mut depth);
        }
        self.fail(ItemFault::WantedBody)
    }

    /// Goes over the next `;` outside of groups.
    pub(crate) fn semicolon(&mut self) -> Result<(), Stop> {
        for _ in self.at..self.end {
            if self.eat(b';') {
                return Ok(());
            }
            if self.word(0).only_begins_items() {
                break;
            }
            self.step();
        }
        self.fail(ItemFault::WantedSemicolon)
    }

    /// Goes over the `;` that stands here.
    pub(crate) fn semicolon_here(&mut self) -> Result<(), Stop> {
        if self.eat(b';') {
            return Ok(());
        }
        self.fail(ItemFault::WantedSemicolon)
    }

    /// Stops unless a body, a `;` or a `where` stands here.
    pub(crate) fn ends_head(&self) -> Result<(), Stop> {
        if self.is_braced() || self.is_mark(0, b';') || self.word(0) == Word::Where {
            return Ok(());
        }
        self.fail(ItemFault::WantedBody)
    }

    /// Goes over what declares, with its body or its `;`, and answers the places within the body.
    pub(crate) fn declaration(&mut self) -> Result<Option<Span>, Stop> {
        self.to_body()?;
        if self.eat(b';') {
            return Ok(None);
        }
        Ok(Some(self.group()?))
    }

    /// Goes over what declares and its body.
    pub(crate) fn braced_declaration(&mut self) -> Result<Span, Stop> {
        self.to_body()?;
        if !self.is_braced() {
            return self.fail(ItemFault::WantedBody);
        }
        self.group()
    }

    /// Goes to the next `,` outside of groups and angles, or to the end.
    pub(crate) fn to_comma_of_type(&mut self) {
        let mut depth = 0;
        for _ in self.at..self.end {
            if depth == 0 && self.is_mark(0, b',') || self.at >= self.end {
                break;
            }
            self.step_in_type(&mut depth);
        }
    }

    /// Goes to the next `,` outside of groups, or to the end.
    pub(crate) fn to_comma(&mut self) {
        for _ in self.at..self.end {
            if self.is_mark(0, b',') || self.at >= self.end {
                break;
            }
            self.step();
        }
    }
}
