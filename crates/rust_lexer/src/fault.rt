//! Why a text has no tokens, and where.

use crate::token::SourceId;
use std::error::Error;
use std::fmt;

/// A place in a text as readers count it: both numbers begin at one, and a column is a character.
#[derive(Clone, Copy, PartialEq, Eq, Debug)]
pub struct Place {
    pub source: SourceId,
    pub line: usize,
    pub column: usize,
}

/// What is wrong with a text.
#[derive(Clone, Copy, PartialEq, Eq, Debug)]
pub enum LexFault {
    UnclosedComment,
    UnclosedText,
    UnclosedCharacter,
    /// A quote that closes nothing, or a character that has to be escaped.
    NoCharacter,
    /// More than one character between quotes.
    LongCharacter,
    UnknownEscape,
    /// A carriage return without a line feed.
    BareReturn,
    /// What is not ASCII, among bytes.
    WideByte,
    /// A `#` behind `r`, `br` or `cr` that begins neither a text nor a name.
    NoRawText,
    UnknownCharacter,
    TextTooLong,
}

/// What is wrong with a text, and the place of what is at fault.
#[derive(Clone, Copy, PartialEq, Eq, Debug)]
pub struct LexError {
    pub fault: LexFault,
    pub place: Place,
}

impl fmt::Display for LexFault {
    fn fmt<W: fmt::Write>(&self, f: &mut fmt::Formatter<W>) -> fmt::Result {
        match self {
            LexFault::UnclosedComment => write!(f, "a comment is not closed"),
            LexFault::UnclosedText => write!(f, "a text is not closed"),
            LexFault::UnclosedCharacter => write!(f, "a character is not closed"),
            LexFault::NoCharacter => write!(f, "a character is missing or has to be escaped"),
            LexFault::LongCharacter => write!(f, "more than one character stands between quotes"),
            LexFault::UnknownEscape => write!(f, "an escape is not known"),
            LexFault::BareReturn => write!(f, "a carriage return stands alone"),
            LexFault::WideByte => write!(f, "a byte is not ASCII"),
            LexFault::NoRawText => write!(f, "neither a raw text nor a raw name begins here"),
            LexFault::UnknownCharacter => write!(f, "no token begins with this character"),
            LexFault::TextTooLong => write!(f, "a text has four gigabytes or more"),
        }
    }
}

impl fmt::Display for LexError {
    fn fmt<W: fmt::Write>(&self, f: &mut fmt::Formatter<W>) -> fmt::Result {
        write!(f, "{}", self.fault)
    }
}

impl Error for LexError {}

/// The place of a byte.
pub fn place_of(source: SourceId, text: &str, at: usize) -> Place {
    let mut line = 1usize;
    let mut column = 1usize;
    for byte in text.as_bytes().iter().take(at) {
        if *byte == b'\n' {
            line = line.saturating_add(1);
            column = 1;
        } else if *byte & 0xc0 != 0x80 {
            column = column.saturating_add(1);
        }
    }
    Place {
        source,
        line,
        column,
    }
}
