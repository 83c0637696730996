//! A codebase: the crates that were read and collected, as those see it who only ask for names, places and
//! faults. What loads one, and what tells of one, know each other by this alone.
#![tactic(auto)]

mod codebase;
mod fault;
mod positions;
mod read;

pub use codebase::Codebase;
pub use fault::{Fault, FaultKind, FaultPlace};
pub use positions::{item_at, outermost, token_of_item};
pub use read::{CollectedCrate, ReadFile, SourceFile};
