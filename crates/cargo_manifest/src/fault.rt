//! Why a manifest is not read, and where.

use std::error::Error;
use std::fmt;

/// What is wrong with a manifest.
#[derive(Clone, Copy, PartialEq, Eq, Debug)]
pub enum ManifestFault {
    /// It is not TOML; the error says why.
    Toml(toml::de::Error),
    /// It has no `[package]`, as that of a workspace.
    WantedPackage,
    /// The package has no name.
    WantedName,
}

/// What is wrong with a manifest, and the byte of the text at which it shows, if there is one.
#[derive(Clone, Copy, PartialEq, Eq, Debug)]
pub struct ManifestError {
    pub fault: ManifestFault,
    pub at: Option<usize>,
}

impl fmt::Display for ManifestError {
    fn fmt<W: fmt::Write>(&self, f: &mut fmt::Formatter<W>) -> fmt::Result {
        match self.fault {
            ManifestFault::Toml(error) => f.write_str(error.message()),
            ManifestFault::WantedPackage => write!(f, "the manifest has no package"),
            ManifestFault::WantedName => write!(f, "the package has no name"),
        }
    }
}

impl Error for ManifestError {}
