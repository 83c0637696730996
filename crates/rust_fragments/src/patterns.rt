//! Where patterns end.

use crate::cursor::Cursor;
use crate::words::Word;
use rust_lexer::TokenKind;

impl<'a> Cursor<'a> {
    /// Whether a pattern ends here. No part of one is followed by what may stand behind the whole.
    fn ends_pattern(&self, with_alternatives: bool) -> bool {
        match self.kind(0) {
            None => true,
            Some(TokenKind::Mark(b',' | b';' | b'=')) => true,
            Some(TokenKind::Mark(b':')) => !self.is_path_mark(0),
            Some(TokenKind::Mark(b'|')) => !with_alternatives,
            Some(_) => matches!(self.word(0), Word::If | Word::In),
        }
    }

    /// Goes over a part of a pattern.
    fn pattern_part(&mut self) -> Option<()> {
        match self.kind(0)? {
            TokenKind::Mark(b'<') => self.angles()?,
            TokenKind::Mark(b':') => {
                self.skip(2);
                if self.is_mark(0, b'<') {
                    self.angles()?;
                }
            }
            TokenKind::Mark(b'.') => self.skip(self.operator_length()),
            TokenKind::Mark(b'|' | b'&' | b'-' | b'@' | b'!') => self.skip(1),
            TokenKind::Mark(_) => return None,
            _ => self.step(),
        }
        Some(())
    }

    /// Goes over a pattern, with alternatives behind each `|`, or up to the first.
    pub(crate) fn pattern(&mut self, with_alternatives: bool) -> Option<()> {
        let from = self.at;
        for _ in self.at..self.end {
            if self.ends_pattern(with_alternatives) {
                break;
            }
            self.pattern_part()?;
        }
        if self.at == from {
            return None;
        }
        Some(())
    }
}
