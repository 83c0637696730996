//! Why a macro is not read or not expanded, and where.

use rust_lexer::{Place, Sources, Token};
use std::alloc::{AllocError, AllocFailed};
use std::error::Error;
use std::fmt;

/// What is wrong with a macro or with a call of it.
#[derive(Clone, Copy, PartialEq, Eq, Debug)]
pub enum MacroFault {
    /// A rule was expected.
    WantedRule,
    /// A fragment's kind was expected behind a variable.
    WantedFragment,
    /// An operator of a repetition was expected.
    WantedRepetition,
    /// A repetition of a pattern matches no tokens.
    EmptyRepetition,
    DuplicateVariable,
    /// A variable stands in fewer repetitions than it is bound in.
    StillRepeats,
    /// A repetition of a template has no variable that repeats.
    NothingRepeats,
    /// `${concat(..)}` and the like.
    Unsupported,
    /// Patterns and templates are too long, or their repetitions are too entangled.
    TooComplex,
    /// No rule expects what stands here.
    NoRule,
    /// What stands here can be matched in more than one way.
    Ambiguous,
    /// A fragment that may begin here is none.
    BadFragment,
    /// Variables of one repetition repeat a different number of times.
    UnequalRepetitions,
    /// The expansion has more tokens than the limit.
    TooLong,
}

/// What is wrong with a macro or with a call of it, and the place, if a token stands there.
#[derive(Clone, Copy, PartialEq, Eq, Debug)]
pub struct MacroError {
    pub fault: MacroFault,
    pub place: Option<Place>,
}

impl fmt::Display for MacroFault {
    fn fmt<W: fmt::Write>(&self, f: &mut fmt::Formatter<W>) -> fmt::Result {
        match self {
            MacroFault::WantedRule => write!(f, "a rule of a macro was expected"),
            MacroFault::WantedFragment => write!(f, "a variable's kind was expected"),
            MacroFault::WantedRepetition => write!(f, "`*`, `+` or `?` was expected"),
            MacroFault::EmptyRepetition => write!(f, "a repetition matches no tokens"),
            MacroFault::DuplicateVariable => write!(f, "a variable is bound twice"),
            MacroFault::StillRepeats => write!(f, "a variable still repeats here"),
            MacroFault::NothingRepeats => write!(f, "nothing in this repetition repeats"),
            MacroFault::Unsupported => write!(f, "this expression of a macro is not known"),
            MacroFault::TooComplex => write!(f, "this macro is too complex"),
            MacroFault::NoRule => write!(f, "no rule of the macro expects this"),
            MacroFault::Ambiguous => write!(f, "the macro takes this in more than one way"),
            MacroFault::BadFragment => write!(f, "the macro wants another fragment here"),
            MacroFault::UnequalRepetitions => write!(f, "variables repeat unequally often"),
            MacroFault::TooLong => write!(f, "the expansion is too long"),
        }
    }
}

impl fmt::Display for MacroError {
    fn fmt<W: fmt::Write>(&self, f: &mut fmt::Formatter<W>) -> fmt::Result {
        write!(f, "{}", self.fault)
    }
}

impl Error for MacroError {}

/// Why reading or expanding stops: memory was refused, or something is wrong at a token.
#[derive(Drop)]
pub(crate) enum Stop {
    Memory(AllocError),
    At(MacroFault, Option<Token>),
}

impl From<AllocError> for Stop {
    fn from(error: AllocError) -> Self {
        Stop::Memory(error)
    }
}

impl<T: Drop> From<AllocFailed<T>> for Stop {
    fn from(error: AllocFailed<T>) -> Self {
        Stop::Memory(AllocError::from(error))
    }
}

impl Stop {
    /// What is told of it, with the place of the token.
    pub(crate) fn told(self, sources: &Sources) -> Result<MacroError, AllocError> {
        match self {
            Stop::Memory(error) => Err(error),
            Stop::At(fault, token) => Ok(MacroError {
                fault,
                place: token.map(|token| sources.place(token)),
            }),
        }
    }
}
