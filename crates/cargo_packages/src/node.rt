//! A package on the way to a crate.

use crate::paths::{code_name, plain_name};
use cargo_manifest::Manifest;
use def_ids::Edition;
use indexmap::IndexSet;
use std::alloc::{AllocError, Global};

/// A package on the way.
#[derive(Drop)]
pub(crate) struct Node {
    pub(crate) name: String,
    pub(crate) root: String,
    pub(crate) edition: Edition,
    pub(crate) is_proc_macro: bool,
    pub(crate) features: Vec<String>,
    pub(crate) dependencies: Vec<(String, usize)>,
    pub(crate) absent: Vec<String>,
    pub(crate) folder: String,
    pub(crate) manifest: Option<Manifest>,
    /// The features that others ask for, and whether one asks for the default ones.
    pub(crate) wanted: IndexSet<String>,
    pub(crate) has_default: bool,
    /// The library beside a program.
    pub(crate) library: Option<usize>,
    /// Whether it is of the standard library, or one that that depends on.
    pub(crate) is_below_std: bool,
}

/// Where a library lies, and whether it is meant as one of the standard library or below that. For
/// others it is another crate, since what it depends on is asked for other features there.
#[derive(PartialEq, Eq, Hash, Drop)]
pub(crate) struct LibraryKey {
    pub(crate) path: String,
    pub(crate) is_below_std: bool,
}

/// What is asked of a package.
#[derive(Drop)]
pub(crate) struct Asked {
    pub(crate) folder: String,
    pub(crate) is_below_std: bool,
    /// The features, and whether the default ones are among them.
    pub(crate) wanted: Vec<String>,
    pub(crate) has_default: bool,
    /// The library beside a program.
    pub(crate) library: Option<usize>,
}

/// What is found for a package.
#[derive(Drop)]
pub(crate) struct Found {
    pub(crate) features: Vec<String>,
    pub(crate) links: Vec<(String, usize)>,
    pub(crate) absent: Vec<String>,
}

impl Found {
    /// Nothing.
    pub(crate) fn new(alloc: Global) -> Found {
        Found {
            features: Vec::new(alloc),
            links: Vec::new(alloc),
            absent: Vec::new(alloc),
        }
    }

    /// Whether a crate is linked by a name.
    pub(crate) fn has_link(&self, name: &str) -> bool {
        self.links.iter().any(|link| link.0.as_str() == name)
    }
}

impl Node {
    /// Takes what was found for a package, in place of what was found before.
    pub(crate) fn take(&mut self, found: Found) {
        let Found {
            features,
            links,
            absent,
        } = found;
        self.features = features;
        self.dependencies = links;
        self.absent = absent;
    }
}

/// The edition of a name.
fn edition_of(text: &str) -> Edition {
    match text {
        "2018" => Edition::Edition2018,
        "2021" => Edition::Edition2021,
        "2024" => Edition::Edition2024,
        _ => Edition::Edition2015,
    }
}

/// The name of a library as code has it: the manifest's, else the one by which it is called, else its
/// root file's.
fn library_name(
    alloc: Global,
    manifest: Option<&Manifest>,
    called: Option<&str>,
    root: &str,
) -> Result<String, AllocError> {
    match manifest {
        Some(manifest) => match &manifest.lib_name {
            Some(name) => code_name(alloc, name.as_str()),
            None => code_name(alloc, manifest.name.as_str()),
        },
        None => code_name(alloc, called.unwrap_or(plain_name(root))),
    }
}

/// A package of which nothing is asked yet.
pub(crate) fn new_node(
    alloc: Global,
    folder: String,
    root: String,
    manifest: Option<Manifest>,
    called: Option<&str>,
) -> Result<Node, AllocError> {
    let edition = match &manifest {
        Some(manifest) => edition_of(manifest.edition.as_str()),
        None => Edition::Edition2021,
    };
    let is_proc_macro = manifest
        .as_ref()
        .is_some_and(|manifest| manifest.is_proc_macro);
    Ok(Node {
        name: library_name(alloc, manifest.as_ref(), called, root.as_str())?,
        root,
        edition,
        is_proc_macro,
        features: Vec::new(alloc),
        dependencies: Vec::new(alloc),
        absent: Vec::new(alloc),
        folder,
        manifest,
        wanted: IndexSet::new(alloc),
        has_default: false,
        library: None,
        is_below_std: false,
    })
}
