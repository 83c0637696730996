//! From a folder to the crates that are to be read: by its manifest, or by the files that are there,
//! with the crates that it depends on, each behind those that it depends on itself.
#![tactic(auto)]

mod fault;
mod finding;
mod locate;
mod node;
mod order;
mod packages;
mod paths;
mod settings;

pub use fault::PackageError;
pub use order::Package;
pub use packages::find_packages;
pub use settings::{Folders, RootKind, Settings};
