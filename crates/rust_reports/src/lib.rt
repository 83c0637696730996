//! What does not resolve in a crate: the imports, macros and modules that are not found, each with its
//! place and a sentence, without those that come from crates that are not given.
#![tactic(auto)]

mod absent;
mod checked;
mod derives;
mod diagnostics;
mod imports;
mod macros;
mod opaque;
mod parts;
mod reports;
mod search;
mod stops;
mod words;

pub use absent::CrateNotes;
pub use checked::Checked;
pub use reports::{At, Report, Reports};
