//! An oracle over a database: what a call of a macro gives is numbered by where the call stands and by
//! the macro that is found for it.
#![tactic(auto)]

mod numbers;
mod oracle;

pub use numbers::{CallNumber, CalledMacro};
pub use oracle::{INCLUDE, Oracle};
