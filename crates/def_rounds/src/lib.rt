//! The order of a run's passes: imports until none is ready, macros then, and where nothing moves an
//! item is given up. Of what a pass does it knows the contract alone.
#![tactic(auto)]

mod passes;
mod rounds;

pub use passes::Passes;
pub use rounds::resolution_loop;
