//! Crates of real sources: their files are read, their macros expanded in rounds, and their definitions
//! collected.
#![tactic(auto)]

mod ahead;
mod builtins;
mod calls;
mod codebase;
mod crates;
mod definitions;
mod directories;
mod expansions;
mod implied;
mod include;
mod modules;
mod places;
mod reading;
mod rounds;
mod texts;
mod times;
mod walk;
mod workspace;

pub use times::Times;
pub use workspace::{CrateRequest, Workspace};
