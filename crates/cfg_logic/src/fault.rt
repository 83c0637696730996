//! Why a `cfg` has no meaning.

use std::error::Error;
use std::fmt;

/// What is wrong with a `cfg`.
#[derive(Clone, Copy, PartialEq, Eq, Debug)]
pub enum CfgFault {
    /// Nothing stands where a predicate was expected, or what begins none.
    WantedPredicate,
    /// No text stands after `=`.
    WantedText,
    /// Two predicates stand side by side.
    WantedComma,
    /// `not(..)` or the whole has none or several.
    WantedOne,
    /// `NAME(..)`, where the name is no word for a group.
    UnknownForm,
    /// A `cfg` or `cfg_attr` without its parentheses.
    WantedGroup,
}

/// Why a word of a command line sets no `cfg`.
#[derive(Clone, Copy, PartialEq, Eq, Debug)]
pub enum CfgWordError {
    /// It has no name, or a name that is no identifier.
    WantedName,
    /// What follows `=` does not stand in double quotes.
    WantedQuotes,
}

impl fmt::Display for CfgFault {
    fn fmt<W: fmt::Write>(&self, f: &mut fmt::Formatter<W>) -> fmt::Result {
        match self {
            CfgFault::WantedPredicate => write!(f, "a predicate of `cfg` was expected"),
            CfgFault::WantedText => write!(f, "a text was expected after `=`"),
            CfgFault::WantedComma => write!(f, "a comma was expected between predicates of `cfg`"),
            CfgFault::WantedOne => write!(f, "exactly one predicate of `cfg` was expected"),
            CfgFault::UnknownForm => write!(f, "this form of a predicate of `cfg` is not known"),
            CfgFault::WantedGroup => write!(f, "parentheses were expected after `cfg`"),
        }
    }
}

impl fmt::Display for CfgWordError {
    fn fmt<W: fmt::Write>(&self, f: &mut fmt::Formatter<W>) -> fmt::Result {
        match self {
            CfgWordError::WantedName => write!(f, "a name was expected"),
            CfgWordError::WantedQuotes => write!(f, "a value in double quotes was expected"),
        }
    }
}

impl Error for CfgWordError {}
