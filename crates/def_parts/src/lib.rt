//! Module directories, where items stand, and readers of procedural macro declarations; with the glob
//! waves of `def_globs`.
#![tactic(auto)]

mod mod_dirs;
mod mod_resolution;
mod proc_macro;
mod site;

pub use def_bindings::Entry;
pub use def_globs::Globs;
pub use mod_dirs::ModDirs;
pub use mod_resolution::{DirPath, ModDir};
pub use proc_macro::{
    ProcMacroDef, ProcMacroKind, parse_macro_name_and_helper_attrs, parse_proc_macro_decl,
    parse_proc_macro_derive,
};
pub use site::Site;
