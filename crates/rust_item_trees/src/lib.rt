//! From the items of a text, as they are read, to the item tree of which the collector is told.
#![tactic(auto)]

mod arguments;
mod associated;
mod attributes;
mod context;
mod fault;
mod imports;
mod inner_macros;
mod items;
mod kinds;
mod paths;
mod token_trees;
mod tree;
mod variants;
mod visibilities;

pub use context::Context;
pub use fault::{LowerError, LowerFault};
pub use inner_macros::InnerMacros;
pub use items::{Lowered, lower};
