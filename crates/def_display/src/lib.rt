//! Names, paths, modules, definitions, visibilities and diagnostics as text, with their names.
#![tactic(auto)]

mod defs;
mod diagnostics;
mod modules;
mod paths;

pub use defs::ShownDef;
pub use diagnostics::ShownDiagnostic;
pub use modules::{ShownModule, ShownVisibility};
pub use paths::{ShownName, ShownPath};
