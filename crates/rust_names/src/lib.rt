//! Modules and definitions of a codebase by their names and their places: from numbers to paths as they
//! are written in Rust and to lines of files, and back from paths to modules and bindings.
#![tactic(auto)]

mod described;
mod imports;
mod meanings;
mod names;
mod paths;
mod places;
mod variants;

pub use described::Described;
pub use imports::Brought;
pub use names::{Names, kind_word};
pub use places::{Places, Spot};
