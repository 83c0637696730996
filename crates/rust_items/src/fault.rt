//! Why trees are no items, and where.

use rust_lexer::Place;
use std::alloc::{AllocError, AllocFailed};
use std::error::Error;
use std::fmt;

/// What was wanted where the reader stopped.
#[derive(Clone, Copy, PartialEq, Eq, Debug)]
pub enum ItemFault {
    WantedItem,
    WantedName,
    WantedBody,
    WantedSemicolon,
    WantedComma,
    WantedType,
    WantedGroup,
    WantedImport,
    WantedAngle,
    /// An item that may not stand in a trait, an implementation or an extern block.
    Misplaced,
}

/// What was wanted, and the place of what stands there.
#[derive(Clone, Copy, PartialEq, Eq, Debug)]
pub struct ItemError {
    pub fault: ItemFault,
    pub place: Place,
}

impl fmt::Display for ItemFault {
    fn fmt<W: fmt::Write>(&self, f: &mut fmt::Formatter<W>) -> fmt::Result {
        match self {
            ItemFault::WantedItem => write!(f, "an item was expected"),
            ItemFault::WantedName => write!(f, "a name was expected"),
            ItemFault::WantedBody => write!(f, "a body or a semicolon was expected"),
            ItemFault::WantedSemicolon => write!(f, "a semicolon was expected"),
            ItemFault::WantedComma => write!(f, "a comma was expected"),
            ItemFault::WantedType => write!(f, "a colon and a type were expected"),
            ItemFault::WantedGroup => write!(f, "a delimiter was expected"),
            ItemFault::WantedImport => write!(f, "a path to import was expected"),
            ItemFault::WantedAngle => write!(f, "the end of the generics was expected"),
            ItemFault::Misplaced => write!(f, "this item may not stand here"),
        }
    }
}

impl fmt::Display for ItemError {
    fn fmt<W: fmt::Write>(&self, f: &mut fmt::Formatter<W>) -> fmt::Result {
        write!(f, "{}", self.fault)
    }
}

impl Error for ItemError {}

/// Why the reader stops: memory was refused, or what comes does not fit.
#[derive(Drop)]
pub(crate) enum Stop {
    Memory(AllocError),
    Here(ItemFault),
}

impl From<AllocError> for Stop {
    fn from(error: AllocError) -> Self {
        Stop::Memory(error)
    }
}

impl<T: Drop> From<AllocFailed<T>> for Stop {
    fn from(error: AllocFailed<T>) -> Self {
        Stop::Memory(AllocError::from(error))
    }
}
