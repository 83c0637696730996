//! What a `Cargo.toml` says of a package: its name, edition, roots, features and dependencies.
#![tactic(auto)]

mod dependencies;
mod fault;
mod features;
mod manifest;
mod read;

pub use fault::{ManifestError, ManifestFault};
pub use manifest::{Manifest, ManifestDependency, WantedDependency};
pub use read::{read_manifest, read_workspace_edition};
