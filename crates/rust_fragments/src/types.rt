//! Where paths and types end.

use crate::cursor::Cursor;
use crate::words::Word;
use rust_lexer::TokenKind;

/// What a part of a type is.
#[derive(Clone, Copy, PartialEq, Eq)]
enum TypePart {
    /// What a type follows on.
    Prefix,
    Whole,
}

impl<'a> Cursor<'a> {
    /// Goes over `<..>`.
    pub(crate) fn angles(&mut self) -> Option<()> {
        let mut depth = 0usize;
        for _ in self.at..self.end {
            match self.kind(0) {
                Some(TokenKind::Mark(b'-')) if self.is_pair(0, b'-', b'>') => self.skip(2),
                Some(TokenKind::Mark(b'<')) => {
                    depth = depth.saturating_add(1);
                    self.skip(1);
                }
                Some(TokenKind::Mark(b'>')) => {
                    depth = depth.saturating_sub(1);
                    self.skip(1);
                }
                _ => self.step(),
            }
            if depth == 0 {
                return Some(());
            }
        }
        None
    }

    /// Goes over the name of a path's segment.
    pub(crate) fn segment(&mut self) -> Option<()> {
        if !self.word(0).is_segment() {
            return None;
        }
        self.skip(1);
        Some(())
    }

    /// Goes over a segment of a path in a type, with its generics or the types that it takes.
    fn type_segment(&mut self) -> Option<()> {
        self.segment()?;
        if self.is_path_mark(0)
            && (self.is_mark(2, b'<') || self.kind(2) == Some(TokenKind::OpenParen))
        {
            self.skip(2);
        }
        if self.is_mark(0, b'<') && !self.is_pair(0, b'<', b'=') {
            self.angles()?;
        } else if self.kind(0) == Some(TokenKind::OpenParen) {
            self.step();
        }
        Some(())
    }

    /// Goes over a path as types have it, but for what stands behind a `->`.
    fn type_path_before_arrow(&mut self) -> Option<()> {
        if self.is_mark(0, b'<') {
            self.angles()?;
            if !self.eat_pair(b':', b':') {
                return None;
            }
        } else {
            self.eat_pair(b':', b':');
        }
        self.type_segment()?;
        for _ in self.at..self.end {
            if !self.eat_pair(b':', b':') {
                break;
            }
            self.type_segment()?;
        }
        Some(())
    }

    /// Goes over a path as types have it.
    pub(crate) fn type_path(&mut self) -> Option<()> {
        self.type_path_before_arrow()?;
        if self.eat_pair(b'-', b'>') {
            return self.ty(false);
        }
        Some(())
    }

    /// Goes over a path of names.
    pub(crate) fn plain_path(&mut self) -> Option<()> {
        self.eat_pair(b':', b':');
        self.segment()?;
        for _ in self.at..self.end {
            if !self.eat_pair(b':', b':') {
                break;
            }
            self.segment()?;
        }
        Some(())
    }

    /// Goes over the part of a type that begins with a word.
    fn type_word(&mut self) -> Option<TypePart> {
        match self.word(0) {
            Word::Impl | Word::Unsafe | Word::Const => self.skip(1),
            Word::Async | Word::Dyn if !self.is_path_mark(1) => self.skip(1),
            Word::Extern => {
                self.skip(1);
                if matches!(self.kind(0), Some(TokenKind::Text | TokenKind::RawText)) {
                    self.skip(1);
                }
            }
            Word::For => {
                self.skip(1);
                self.angles()?;
            }
            Word::Fn => {
                self.skip(1);
                self.group(TokenKind::OpenParen)?;
                return Some(TypePart::Whole);
            }
            Word::Use => {
                self.skip(1);
                self.angles()?;
                return Some(TypePart::Whole);
            }
            Word::Underscore => {
                self.skip(1);
                return Some(TypePart::Whole);
            }
            _ => {
                self.type_path_before_arrow()?;
                if self.is_mark(0, b'!') && self.opens(1) {
                    self.skip(1);
                    self.step();
                }
                return Some(TypePart::Whole);
            }
        }
        Some(TypePart::Prefix)
    }

    /// Goes over a part of a type.
    fn type_part(&mut self) -> Option<TypePart> {
        match self.kind(0)? {
            TokenKind::Mark(b'&') => {
                self.skip(1);
                self.eat_lifetime();
                self.eat_word(Word::Mut);
                Some(TypePart::Prefix)
            }
            TokenKind::Mark(b'*') => {
                self.skip(1);
                if !self.eat_word(Word::Const) && !self.eat_word(Word::Mut) {
                    return None;
                }
                Some(TypePart::Prefix)
            }
            TokenKind::Mark(b'?' | b'~') => {
                self.skip(1);
                Some(TypePart::Prefix)
            }
            TokenKind::Mark(b'!') | TokenKind::Lifetime => {
                self.skip(1);
                Some(TypePart::Whole)
            }
            TokenKind::OpenParen | TokenKind::OpenBracket => {
                self.step();
                Some(TypePart::Whole)
            }
            _ => self.type_word(),
        }
    }

    /// Goes over a type, with bounds behind each `+`, or up to the first.
    pub(crate) fn ty(&mut self, with_bounds: bool) -> Option<()> {
        for _ in self.at..self.end {
            if self.type_part()? == TypePart::Prefix || self.eat_pair(b'-', b'>') {
                continue;
            }
            if !with_bounds || !self.is_mark(0, b'+') || self.is_pair(0, b'+', b'=') {
                return Some(());
            }
            self.skip(1);
            if !self.begins_type() {
                return Some(());
            }
        }
        None
    }
}
