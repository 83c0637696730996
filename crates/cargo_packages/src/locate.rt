//! Where packages lie.

use crate::fault::PackageError;
use crate::paths::is_root_file;
use crate::settings::{Folders, RootKind, Settings};
use cargo_manifest::{Manifest, ManifestDependency, read_manifest, read_workspace_edition};
use source_files::join;
use std::alloc::{AllocError, Global};

/// How many folders are looked at for the workspace of a package, from its own one upwards.
const FOLDERS_UPWARDS: usize = 16;

/// How often lines end before a byte of a text, and one more.
fn line_of(text: &str, at: usize) -> usize {
    let mut line = 1usize;
    for byte in text.as_bytes().get(..at).unwrap_or(b"") {
        if *byte == b'\n' {
            line = line.saturating_add(1);
        }
    }
    line
}

/// The edition that the manifest in a folder has for the members of a workspace.
fn edition_for_members<F: Folders>(
    alloc: Global,
    folders: &F,
    folder: &str,
) -> Result<Option<String>, AllocError> {
    let path = join(alloc, folder, "Cargo.toml")?;
    let Some(bytes) = folders.read(path.as_str())? else {
        return Ok(None);
    };
    match std::str::from_utf8(bytes.as_slice()) {
        Ok(text) => read_workspace_edition(alloc, text),
        Err(_) => Ok(None),
    }
}

/// The edition that a member of a workspace has from it, by the member's folder.
fn workspace_edition<F: Folders>(
    alloc: Global,
    folders: &F,
    folder: &str,
) -> Result<Option<String>, AllocError> {
    let mut at = join(alloc, folder, "")?;
    for _ in 0..FOLDERS_UPWARDS {
        if let Some(edition) = edition_for_members(alloc, folders, at.as_str())? {
            return Ok(Some(edition));
        }
        at = join(alloc, at.as_str(), "..")?;
    }
    Ok(None)
}

/// Gives a manifest the edition of its workspace, if that is what it asks for.
fn inherit_edition<F: Folders>(
    alloc: Global,
    folders: &F,
    folder: &str,
    manifest: &mut Manifest,
) -> Result<(), AllocError> {
    if manifest.is_workspace_edition {
        if let Some(edition) = workspace_edition(alloc, folders, folder)? {
            manifest.edition = edition;
        }
    }
    Ok(())
}

/// The manifest in a folder. None of one where there is no file of it.
pub(crate) fn manifest_in<F: Folders>(
    alloc: Global,
    folders: &F,
    folder: &str,
) -> Result<Result<Option<Manifest>, PackageError>, AllocError> {
    let path = join(alloc, folder, "Cargo.toml")?;
    let Some(bytes) = folders.read(path.as_str())? else {
        return Ok(Ok(None));
    };
    let Ok(text) = std::str::from_utf8(bytes.as_slice()) else {
        return Ok(Err(PackageError::NotUtf8(path)));
    };
    match read_manifest(alloc, text)? {
        Ok(mut manifest) => {
            inherit_edition(alloc, folders, folder, &mut manifest)?;
            Ok(Ok(Some(manifest)))
        }
        Err(error) => {
            let line = error.at.map(|at| line_of(text, at));
            Ok(Err(PackageError::Manifest { path, line, error }))
        }
    }
}

/// The first of some paths from a folder at which a file is.
pub(crate) fn first_file<F: Folders>(
    alloc: Global,
    folders: &F,
    folder: &str,
    paths: &[&str],
) -> Result<Option<String>, AllocError> {
    for path in paths {
        let path = join(alloc, folder, path)?;
        if folders.read(path.as_str())?.is_some() {
            return Ok(Some(path));
        }
    }
    Ok(None)
}

/// The root of the library of a package.
pub(crate) fn library_root<F: Folders>(
    alloc: Global,
    folders: &F,
    folder: &str,
    manifest: Option<&Manifest>,
) -> Result<Option<String>, AllocError> {
    let named = manifest.and_then(|manifest| manifest.lib_path.as_ref());
    match named {
        Some(path) => first_file(alloc, folders, folder, &[path.as_str()]),
        None => first_file(alloc, folders, folder, &["src/lib.rs", "lib.rs"]),
    }
}

/// The root of the library that lies in a folder, or has this root file, and its manifest. None where no
/// library is there, or its manifest is not read.
pub(crate) fn library_at<F: Folders>(
    alloc: Global,
    folders: &F,
    at: &str,
) -> Result<Option<(String, Option<Manifest>)>, AllocError> {
    let (root, manifest) = if is_root_file(at) {
        (first_file(alloc, folders, at, &[""])?, None)
    } else {
        let Ok(manifest) = manifest_in(alloc, folders, at)? else {
            return Ok(None);
        };
        let root = library_root(alloc, folders, at, manifest.as_ref())?;
        (root, manifest)
    };
    match root {
        Some(root) => Ok(Some((root, manifest))),
        None => Ok(None),
    }
}

/// The root of the first program of a package.
pub(crate) fn program_root<F: Folders>(
    alloc: Global,
    folders: &F,
    folder: &str,
    manifest: Option<&Manifest>,
) -> Result<Option<String>, AllocError> {
    let named = manifest.and_then(|manifest| manifest.bin_paths.as_slice().first());
    match named {
        Some(path) => first_file(alloc, folders, folder, &[path.as_str(), "src/main.rs"]),
        None => first_file(alloc, folders, folder, &["src/main.rs", "main.rs"]),
    }
}

/// The root of a package that is asked for, and which one it is.
pub(crate) fn asked_root<F: Folders>(
    alloc: Global,
    folders: &F,
    settings: &Settings<'_>,
    manifest: Option<&Manifest>,
) -> Result<Option<(String, RootKind)>, AllocError> {
    if settings.kind != Some(RootKind::Program) {
        if let Some(root) = library_root(alloc, folders, settings.at, manifest)? {
            return Ok(Some((root, RootKind::Library)));
        }
    }
    if settings.kind != Some(RootKind::Library) {
        if let Some(root) = program_root(alloc, folders, settings.at, manifest)? {
            return Ok(Some((root, RootKind::Program)));
        }
    }
    Ok(None)
}

/// The numbers of a version, as far as it has some: `1.10.2` is 1, 10 and 2.
fn version(text: &str) -> [u64; 3] {
    let mut numbers = [0; 3];
    let mut parts = text.split('.');
    for number in numbers.iter_mut() {
        let part = parts.next().unwrap_or("");
        *number = part.parse::<u64>().unwrap_or(0);
    }
    numbers
}

/// The folder of a package among those that lie side by side: its name alone, or its name and the
/// greatest version.
fn folder_among(names: &[String], package: &str) -> Option<usize> {
    let mut best: Option<([u64; 3], usize)> = None;
    for (number, name) in names.iter().enumerate() {
        if name.as_str() == package {
            return Some(number);
        }
        let Some(rest) = name.as_str().strip_prefix(package) else {
            continue;
        };
        let Some(rest) = rest.strip_prefix("-") else {
            continue;
        };
        if rest
            .as_bytes()
            .first()
            .is_some_and(|first| first.is_ascii_digit())
        {
            let candidate = (version(rest), number);
            if best.is_none_or(|best| best.0 < candidate.0) {
                best = Some(candidate);
            }
        }
    }
    best.map(|best| best.1)
}

/// The folder in which a package lies that another one depends on.
pub(crate) fn dependency_folder(
    alloc: Global,
    settings: &Settings<'_>,
    side_by_side: &[String],
    folder: &str,
    dependency: &ManifestDependency,
) -> Result<Option<String>, AllocError> {
    // What the standard library depends on names its crates by packages that stand for them.
    let package = dependency.package.as_str();
    let standard = package.strip_prefix("rustc-std-workspace-");
    for (name, given) in settings.externs.iter() {
        if *name == dependency.name.as_str() || standard == Some(*name) {
            return Ok(Some(join(alloc, given, "")?));
        }
    }
    if let Some(path) = &dependency.path {
        return Ok(Some(join(alloc, folder, path.as_str())?));
    }
    let Some(crates) = settings.crates else {
        return Ok(None);
    };
    match folder_among(side_by_side, package) {
        Some(number) => match side_by_side.get(number) {
            Some(name) => Ok(Some(join(alloc, crates, name.as_str())?)),
            None => Ok(None),
        },
        None => Ok(None),
    }
}
