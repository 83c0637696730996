//! The packages that are to be read for the one that is asked for.

use crate::fault::PackageError;
use crate::finding::Finding;
use crate::order::{Package, in_order};
use crate::settings::{Folders, Settings};
use indexmap::IndexMap;
use std::alloc::{AllocError, Global};

/// Finds the package that is asked for and those that it depends on, each behind those that it depends
/// on; the one that is asked for is the last. What a dependency's folder lacks makes it one that is
/// not given.
pub fn find_packages<F: Folders>(
    alloc: Global,
    folders: &F,
    settings: &Settings<'_>,
) -> Result<Result<Vec<Package>, PackageError>, AllocError> {
    let side_by_side = match settings.crates {
        Some(path) => folders.list(path)?,
        None => Vec::new(alloc),
    };
    let mut finding = Finding {
        alloc,
        folders,
        settings,
        side_by_side,
        nodes: Vec::new(alloc),
        by_root: IndexMap::new(alloc),
        by_folder: IndexMap::new(alloc),
        changed: Vec::new(alloc),
    };
    if let Err(error) = finding.begin()? {
        return Ok(Err(error));
    }
    let has_default = settings.has_default_features;
    finding.ask(0, settings.features.as_slice(), has_default)?;
    finding.look_all()?;
    if let (Some(edition), Some(node)) = (settings.edition, finding.nodes.get_mut(0)) {
        node.edition = edition;
    }
    Ok(Ok(in_order(alloc, finding.nodes.as_slice())?))
}
