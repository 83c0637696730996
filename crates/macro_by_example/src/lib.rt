//! Macros by example: their rules are read, and calls of them are expanded.
#![tactic(auto)]

mod bindings;
mod calls;
mod expressions;
mod fault;
mod matching;
mod origins;
mod pattern;
mod read;
mod rounds;
mod rules;
mod template;
mod transcribe;
mod ways;

pub use calls::{Limits, expand};
pub use fault::{MacroError, MacroFault};
pub use read::{MacroKind, read_rules};
pub use rules::Rules;
