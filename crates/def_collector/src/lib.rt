//! The definition collector: from item trees to the map of modules and bindings. What is known so far of
//! a map, what each kind of item does to it, the walk over item trees, the passes over imports and over
//! macros, and whole runs.
#![tactic(auto)]

mod answer;
mod calls;
mod collector;
mod fallback;
mod globs;
mod imports;
mod items;
mod macro_pass;
mod macros;
mod modules;
mod passes;
mod prelude;
mod run;
mod seeding;
mod stack;
mod wakes;

pub use answer::Collected;
pub use def_rules::{
    DefDiagnostic, DefDiagnosticKind, DefDiagnostics, Edge, ExpandErrorKind, LeftImport, LeftMacro,
    LeftMacroKind, Outcome,
};
pub use macro_calls::{AttrResolution, ResolvedAttr};
pub use run::collect_defs;
