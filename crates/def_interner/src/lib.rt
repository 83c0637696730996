//! The session, which gives locations their ids, and what it knows of macros.
#![tactic(auto)]

mod exact;
mod interner;
mod location;
mod macro_def;
mod numbering;
mod room;

pub use exact::Exact;
pub use interner::Interner;
pub use location::{Location, LocationId};
pub use macro_def::{MacroDefId, MacroDefKind};
pub use numbering::Numbering;
