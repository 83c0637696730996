//! From the bytes of a text to its lines and columns, without going over the text each time.

ghost use Rattle.std.specs.Prelude.{◌≡◌, ◌+◌, ◌<◌, ◌≤◌, ℕ, List, [], ◌∷◌, IfOk, length};
ghost use Rattle.std.specs.List.{between};
ghost use Rattle.source_lines.specs.Lines.{AreLinesOf, IsMarkOf, line_of, newlines};

use std::alloc::{AllocError, Global};

/// How many bytes of a line may lie between two marks.
const STRIDE: usize = 512;

/// A line of a text and a column of that line. Both begin at one, and a column is a character.
#[derive(Clone, Copy, PartialEq, Eq, Debug)]
pub struct LineColumn {
    pub line: usize,
    pub column: usize,
}

/// A byte of a text, and the line and the column at which it stands.
#[derive(Clone, Copy)]
struct Mark {
    byte: usize,
    line: usize,
    column: usize,
}

/// The beginning of a text.
const FIRST: Mark = Mark {
    byte: 0,
    line: 1,
    column: 1,
};

/// The lines of a text: marks in their order, where each line begins, and within long lines.
#[derive(Drop)]
pub struct Lines {
    marks: Vec<Mark>,
}

/// The bytes of a text from one on to before another.
fn bytes_between(text: &str, from: usize, to: usize) -> &[u8]
    ensures { from ≤ to → to ≤ length text.now → result.now ≡ between from to text.now }
{
    text.as_bytes().get(from..to).unwrap_or(b"")
}

/// Whether a byte begins a character.
fn begins_character(byte: u8) -> bool {
    byte & 0xc0 != 0x80
}

/// Whether a byte is marked, at which a line begins or which lies far behind the last mark.
fn is_marked(here: Mark, last: usize, byte: u8) -> bool {
    here.column == 1 || begins_character(byte) && here.byte.saturating_sub(last) >= STRIDE
}

/// The mark behind the byte at a mark.
fn step(mark: Mark, byte: u8) -> Mark
    ensures byte { mark.byte < 0xffff_ffff_ffff_ffff → result.byte ≡ mark.byte + 1 }
    ensures line { mark.line < 0xffff_ffff_ffff_ffff → result.line ≡ mark.line + newlines (byte ∷ []) }
{
    let mut next = mark;
    next.byte = mark.byte.saturating_add(1);
    if byte == b'\n' {
        next.line = mark.line.saturating_add(1);
        next.column = 1;
    } else if begins_character(byte) {
        next.column = mark.column.saturating_add(1);
    }
    next
}

/// The mark behind the bytes that follow a mark.
fn walk(mark: Mark, bytes: &[u8]) -> Mark
    ensures { mark.line + length bytes.now ≤ 0xffff_ffff_ffff_ffff → result.line ≡ mark.line + newlines bytes.now }
{
    let mut here = mark;
    for byte in bytes {
        here = step(here, *byte);
    }
    here
}

impl Lines {
    /// The lines of a text.
    pub fn new(alloc: Global, text: &str) -> Result<Lines, AllocError>
        ensures { IfOk result (λ lines. AreLinesOf text.now lines) }
    {
        let mut marks = Vec::new(alloc);
        let mut here = FIRST;
        let mut last = 0;
        for byte in text.as_bytes() {
            if is_marked(here, last, *byte) {
                marks.push(here)?;
                last = here.byte;
            }
            here = step(here, *byte);
        }
        Ok(Lines { marks })
    }

    /// The last mark at a byte or before it.
    fn mark_before(&self, byte: usize) -> Mark
        ensures before { result.byte ≤ byte }
        ensures mark { (text : List ℕ) → AreLinesOf text self.now → IsMarkOf text result }
    {
        let behind = self.marks.partition_point(|mark| mark.byte <= byte);
        let mark = self.marks.get(behind.saturating_sub(1)).copied();
        mark.filter(|mark| mark.byte <= byte).unwrap_or(FIRST)
    }

    /// The last mark at a line and a column or before these.
    fn mark_at(&self, place: LineColumn) -> Mark {
        let behind = self.marks.partition_point(|mark| (mark.line, mark.column)
            <= (place.line, place.column));
        let mark = self.marks.get(behind.saturating_sub(1)).copied();
        mark.unwrap_or(FIRST)
    }

    /// The line and the column of a byte of the text, which is the one that the lines were made of.
    pub fn place(&self, text: &str, byte: usize) -> LineColumn
        ensures { AreLinesOf text.now self.now → byte ≤ length text.now → result.line ≡ line_of text.now byte }
    {
        let mark = self.mark_before(byte);
        let Mark {
            byte: _,
            line,
            column,
        } = walk(mark, bytes_between(text, mark.byte, byte));
        LineColumn { line, column }
    }

    /// The byte at a line and a column of the text, which is the one that the lines were made of. That
    /// behind the text where it ends before.
    pub fn byte(&self, text: &str, place: LineColumn) -> usize {
        let mark = self.mark_at(place);
        if mark.line != place.line {
            return text.len();
        }
        let rest = text.get(mark.byte..).unwrap_or("");
        let steps = place.column.saturating_sub(mark.column);
        match rest.char_indices().nth(steps) {
            Some((at, _)) => mark.byte.saturating_add(at),
            None => text.len(),
        }
    }
}
