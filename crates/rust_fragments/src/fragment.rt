//! Where fragments begin and end.

use crate::cursor::Cursor;
use crate::kind::FragmentKind;
use rust_items::item_end;
use rust_lexer::{Sources, TokenKind};
use rust_trees::Trees;
use std::alloc::{AllocError, Global};

impl<'a> Cursor<'a> {
    /// Goes over a fragment that is no item.
    fn fragment(&mut self, kind: FragmentKind) -> Option<()> {
        match kind {
            FragmentKind::Tree => match self.kind(0)? {
                TokenKind::Mark(_) => self.skip(self.operator_length()),
                _ => self.step(),
            },
            FragmentKind::Identifier | FragmentKind::Lifetime => self.skip(1),
            FragmentKind::Block => self.group(TokenKind::OpenBrace)?,
            FragmentKind::Literal => self.literal()?,
            FragmentKind::Path => self.type_path()?,
            FragmentKind::Type => self.ty(true)?,
            FragmentKind::Expression => self.expression()?,
            FragmentKind::Pattern => self.pattern(true)?,
            FragmentKind::PatternParameter => self.pattern(false)?,
            FragmentKind::Statement => self.statement()?,
            FragmentKind::Meta => self.meta()?,
            FragmentKind::Visibility => self.visibility(),
            FragmentKind::Item => return None,
        }
        Some(())
    }
}

/// Whether a fragment may begin at a place, before an end: where it may not, another rule of a
/// macro is tried, and where it may and is none, the call is at fault.
pub fn may_begin<'a>(
    sources: &'a Sources,
    trees: &'a Trees,
    kind: FragmentKind,
    from: usize,
    end: usize,
) -> bool {
    Cursor::new(sources, trees, from, end).begins(kind)
}

/// The place behind the fragment that begins at a place, before an end. None where there is none.
pub fn fragment_end<'a>(
    alloc: Global,
    sources: &'a Sources,
    trees: &'a Trees,
    kind: FragmentKind,
    from: usize,
    end: usize,
) -> Result<Option<usize>, AllocError> {
    let mut cursor = Cursor::new(sources, trees, from, end);
    if kind == FragmentKind::Item || kind == FragmentKind::Statement && cursor.begins_item() {
        return Ok(item_end(alloc, sources, trees, from, end)?.ok());
    }
    if cursor.at >= cursor.end && kind != FragmentKind::Visibility {
        return Ok(None);
    }
    Ok(match cursor.fragment(kind) {
        Some(()) => Some(cursor.at),
        None => None,
    })
}
