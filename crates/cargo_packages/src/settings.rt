//! What is asked for, and the folders in which it is looked for.

use def_ids::Edition;
use source_files::Files;
use std::alloc::AllocError;

/// The crates that are there without being depended on.
pub(crate) const STANDARD: [&str; 5] = ["std", "core", "alloc", "proc_macro", "test"];

/// Whether a crate of a name is there without being depended on.
pub(crate) fn is_standard(name: &str) -> bool {
    STANDARD.iter().any(|standard| *standard == name)
}

/// Folders of files.
pub trait Folders: Files {
    /// The names of what lies in a folder. None of them where there is no such folder.
    fn list(&self, path: &str) -> Result<Vec<String>, AllocError>;
}

/// Which root of a package is meant.
#[derive(Clone, Copy, PartialEq, Eq, Debug)]
pub enum RootKind {
    Library,
    Program,
}

/// What is asked for.
#[derive(Drop)]
pub struct Settings<'a> {
    /// A folder, or a file that ends in `.rs`.
    pub at: &'a str,
    pub kind: Option<RootKind>,
    /// In place of the manifest's.
    pub edition: Option<Edition>,
    pub features: Vec<String>,
    pub has_default_features: bool,
    /// Names of crates, and the folder or the root file of each.
    pub externs: Vec<(&'a str, &'a str)>,
    /// A folder in which packages lie side by side.
    pub crates: Option<&'a str>,
}

impl<'a> Settings<'a> {
    /// Whether it is said where a crate of the standard library lies.
    pub(crate) fn gives_standard(&self, name: &str) -> bool {
        is_standard(name) && self.externs.iter().any(|given| given.0 == name)
    }
}
