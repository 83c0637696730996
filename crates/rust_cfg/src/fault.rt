//! Why a `cfg` has no meaning, with the token at fault.

use cfg_logic::CfgFault;
use rust_lexer::Token;
use std::error::Error;
use std::fmt;

/// What is wrong with a `cfg`, and the token at fault. To find its place takes a walk over the text,
/// so that is left to who tells the fault.
#[derive(Clone, Copy, PartialEq, Eq, Debug)]
pub struct CfgError {
    pub fault: CfgFault,
    /// The last token, where what is lacking would stand behind it; none where there are none.
    pub token: Option<Token>,
}

impl fmt::Display for CfgError {
    fn fmt<W: fmt::Write>(&self, f: &mut fmt::Formatter<W>) -> fmt::Result {
        write!(f, "{}", self.fault)
    }
}

impl Error for CfgError {}
