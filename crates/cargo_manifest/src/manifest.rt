//! What is read of a manifest.

use indexmap::IndexMap;

/// A package that another may use.
#[derive(Drop)]
pub struct ManifestDependency {
    /// Its name as code has it: `_` in place of `-`.
    pub name: String,
    /// Its name as the manifest has it, which features speak of.
    pub key: String,
    /// The name of its package.
    pub package: String,
    pub is_optional: bool,
    pub has_default_features: bool,
    pub features: Vec<String>,
    /// The folder, seen from the manifest's, if one is named.
    pub path: Option<String>,
}

/// What a manifest says of its package.
#[derive(Drop)]
pub struct Manifest {
    pub name: String,
    /// `2015` where none is named, and `2021` where it is that of the workspace.
    pub edition: String,
    /// Whether the edition is that of the workspace.
    pub is_workspace_edition: bool,
    pub lib_path: Option<String>,
    pub lib_name: Option<String>,
    pub is_proc_macro: bool,
    pub bin_paths: Vec<String>,
    /// For each feature what it turns on. An optional dependency is such a feature too, unless one
    /// turns it on by `dep:`.
    pub features: IndexMap<String, Vec<String>>,
    pub dependencies: Vec<ManifestDependency>,
}

/// Whether a dependency is wanted where some features of the package are on, and with which of its
/// own features, beside its default ones.
#[derive(Drop)]
pub struct WantedDependency {
    pub is_wanted: bool,
    pub features: Vec<String>,
}
