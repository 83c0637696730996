//! Conditional compilation: whether a `cfg` of a source is met, and which attributes an item has.
#![tactic(auto)]

mod fault;
mod literal;
mod meaning;
mod parts;
mod resolve;

pub use cfg_logic::{CfgFault, CfgOptions, CfgPart, CfgWordError, Group, evaluate};
pub use fault::CfgError;
pub use literal::text_of_literal;
pub use meaning::holds;
pub use parts::{CfgParts, read_parts};
pub use resolve::{Resolved, resolve_attributes};
