//! What is known of a crate before its items: what its root file says, the crates that it depends
//! on, those that were not found, and the path of its prelude.
#![tactic(auto)]

mod crate_attrs;
mod crate_deps;
mod missing_crates;
mod prelude;
mod root_file;

pub use crate_attrs::{is_proc_macro_with, top_attrs};
pub use crate_deps::{deps_by_name, is_proc_macro_crate};
pub use missing_crates::MissingCrates;
pub use prelude::prelude_path;
pub use root_file::read_root_file;
