//! Names.

/// A name, by its number in a table of names.
#[derive(Clone, Copy, PartialEq, Eq, Hash, Debug)]
pub struct Name(pub usize);
