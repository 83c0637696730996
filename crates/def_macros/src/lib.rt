//! What items do that define macros, which macros an extern crate brings, and what a root of
//! procedural macros shows, each step over the parts of the state that it reads or changes.
#![tactic(auto)]

mod censored;
mod definitions;
mod expanders;
mod flags;
mod macro_use;
mod numbered;
mod proc_macros;

pub use censored::censor;
pub use definitions::{keep_macro, keep_macro_rules};
pub use macro_use::{macros_brought, take_at_root};
pub use numbered::{MacroItem, number_macro, number_macro_rules};
pub use proc_macros::{
    ExportedMacro, ExportingFunction, define_exported, exports_macros, number_proc_macro,
};
