//! What is wrong with items that are read whole.

use rust_cfg::CfgFault;
use rust_lexer::Place;
use std::error::Error;
use std::fmt;

/// What is wrong with an item or an attribute.
#[derive(Clone, Copy, PartialEq, Eq, Debug)]
pub enum LowerFault {
    Cfg(CfgFault),
    /// A path in which a word stands where it may not, as `a::super`.
    BadPath,
    /// The imports of a text have many more segments together than the text has tokens.
    LongPaths,
    /// The items are no tree.
    NoTree,
}

/// What is wrong, and the place of what is at fault.
#[derive(Clone, Copy, PartialEq, Eq, Debug)]
pub struct LowerError {
    pub fault: LowerFault,
    pub place: Place,
}

impl fmt::Display for LowerFault {
    fn fmt<W: fmt::Write>(&self, f: &mut fmt::Formatter<W>) -> fmt::Result {
        match self {
            LowerFault::Cfg(fault) => write!(f, "{fault}"),
            LowerFault::BadPath => write!(f, "a path has a word that may not stand there"),
            LowerFault::LongPaths => write!(f, "the imports are too long together"),
            LowerFault::NoTree => write!(f, "the items are no tree"),
        }
    }
}

impl fmt::Display for LowerError {
    fn fmt<W: fmt::Write>(&self, f: &mut fmt::Formatter<W>) -> fmt::Result {
        write!(f, "{}", self.fault)
    }
}

impl Error for LowerError {}
