//! Why no package is found.

use cargo_manifest::ManifestError;
use std::error::Error;
use std::fmt;

/// Why no package is found, and the path at which it was looked for.
#[derive(Debug, Drop)]
pub enum PackageError {
    /// No root file is there.
    NoRoot(String),
    /// The manifest is not UTF-8.
    NotUtf8(String),
    /// The manifest is not read: its path, and the line if one is known.
    Manifest {
        path: String,
        line: Option<usize>,
        error: ManifestError,
    },
}

impl fmt::Display for PackageError {
    fn fmt<W: fmt::Write>(&self, f: &mut fmt::Formatter<W>) -> fmt::Result {
        match self {
            PackageError::NoRoot(path) => {
                let path = path.as_str();
                write!(f, "{path}: no root file of a crate is there")
            }
            PackageError::NotUtf8(path) => {
                let path = path.as_str();
                write!(f, "{path}: the file is not UTF-8")
            }
            PackageError::Manifest { path, line, error } => {
                let path = path.as_str();
                match line {
                    Some(line) => write!(f, "{path}:{line}: {error}"),
                    None => write!(f, "{path}: {error}"),
                }
            }
        }
    }
}

impl Error for PackageError {}
