//! The logic of `cfg`: what may be set for a crate, and whether a predicate holds then.
#![tactic(auto)]

mod fault;
mod meaning;
mod options;
mod part;
mod platform;
mod words;

pub use fault::{CfgFault, CfgWordError};
pub use meaning::evaluate;
pub use options::CfgOptions;
pub use part::{CfgPart, Group};
