//! Editions of the language.

/// An edition of the language.
#[derive(Clone, Copy, PartialEq, Eq, Hash)]
pub enum Edition {
    Edition2015,
    Edition2018,
    Edition2021,
    Edition2024,
}
