//! Why tokens are no trees, and where.

use rust_lexer::Place;
use std::error::Error;
use std::fmt;

/// What is wrong with a delimiter.
#[derive(Clone, Copy, PartialEq, Eq, Debug)]
pub enum TreeFault {
    /// It closes, and none is open.
    Unopened,
    /// It opens, and none closes it.
    Unclosed,
    /// It closes, and one of another kind is open.
    Mismatched,
    /// There are four thousand million tokens or more.
    TooLong,
}

/// What is wrong with a delimiter, and its place.
#[derive(Clone, Copy, PartialEq, Eq, Debug)]
pub struct TreeError {
    pub fault: TreeFault,
    pub place: Place,
}

impl fmt::Display for TreeFault {
    fn fmt<W: fmt::Write>(&self, f: &mut fmt::Formatter<W>) -> fmt::Result {
        match self {
            TreeFault::Unopened => write!(f, "nothing opens what this closes"),
            TreeFault::Unclosed => write!(f, "nothing closes this"),
            TreeFault::Mismatched => write!(f, "another delimiter is open here"),
            TreeFault::TooLong => write!(f, "there are too many tokens"),
        }
    }
}

impl fmt::Display for TreeError {
    fn fmt<W: fmt::Write>(&self, f: &mut fmt::Formatter<W>) -> fmt::Result {
        write!(f, "{}", self.fault)
    }
}

impl Error for TreeError {}
