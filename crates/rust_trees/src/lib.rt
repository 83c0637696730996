//! Token trees: the tokens of a text, flat, and for each delimiter the place of its partner.
#![tactic(auto)]

mod fault;
mod trees;

pub use fault::{TreeError, TreeFault};
pub use trees::Trees;
