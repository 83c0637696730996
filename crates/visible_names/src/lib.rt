//! The names that a module sees, each with what brings it.
#![tactic(auto)]

mod brought;
mod listed;
mod seen;

pub use brought::{BroughtBy, VisibleName};
pub use listed::visible_names;
