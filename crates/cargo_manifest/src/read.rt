//! A manifest's text read.

use crate::dependencies::read_dependencies;
use crate::fault::{ManifestError, ManifestFault};
use crate::features::read_features;
use crate::manifest::Manifest;
use std::alloc::{AllocError, Global};
use toml::{Table, Value};

/// The table that a table has under a key.
pub(crate) fn table_in<'a>(table: &'a Table, key: &str) -> Option<&'a Table> {
    match table.get(key) {
        Some(Value::Table(within)) => Some(within),
        _ => None,
    }
}

/// The text that a table has under a key.
pub(crate) fn text_in<'a>(table: &'a Table, key: &str) -> Option<&'a str> {
    match table.get(key) {
        Some(Value::String(text)) => Some(text.as_str()),
        _ => None,
    }
}

/// The truth that a table has under a key.
pub(crate) fn truth_in(table: &Table, key: &str) -> Option<bool> {
    match table.get(key) {
        Some(Value::Boolean(truth)) => Some(*truth),
        _ => None,
    }
}

/// A text of one's own, if there is one.
pub(crate) fn owned(alloc: Global, text: Option<&str>) -> Result<Option<String>, AllocError> {
    match text {
        Some(text) => Ok(Some(String::from_str(alloc, text)?)),
        None => Ok(None),
    }
}

/// The texts of a list, what is no text left out.
pub(crate) fn texts(alloc: Global, value: Option<&Value>) -> Result<Vec<String>, AllocError> {
    let mut texts = Vec::new(alloc);
    if let Some(Value::Array(values)) = value {
        for value in values.iter() {
            if let Value::String(text) = value {
                texts.push(text.clone()?)?;
            }
        }
    }
    Ok(texts)
}

/// The roots of programs that a manifest names.
fn read_bin_paths(alloc: Global, document: &Table) -> Result<Vec<String>, AllocError> {
    let mut paths = Vec::new(alloc);
    if let Some(Value::Array(programs)) = document.get("bin") {
        for program in programs.iter() {
            if let Value::Table(program) = program {
                if let Some(path) = text_in(program, "path") {
                    paths.push(String::from_str(alloc, path)?)?;
                }
            }
        }
    }
    Ok(paths)
}

/// Whether a library's table says that it is of procedural macros.
fn is_proc_macro(library: &Table) -> bool {
    if let Some(Value::Array(kinds)) = library.get("crate-type") {
        for kind in kinds.iter() {
            if let Value::String(kind) = kind {
                if kind.as_str() == "proc-macro" {
                    return true;
                }
            }
        }
    }
    let dashed = truth_in(library, "proc-macro");
    dashed.or(truth_in(library, "proc_macro")).unwrap_or(false)
}

/// The edition that a package's table names. A table in place of a name stands for the workspace's.
fn edition_of(package: &Table) -> &str {
    match package.get("edition") {
        Some(Value::String(edition)) => edition.as_str(),
        Some(Value::Table(_)) => "2021",
        _ => "2015",
    }
}

/// The edition that a workspace has for its members.
fn workspace_edition(document: &Table) -> Option<&str> {
    let workspace = table_in(document, "workspace")?;
    text_in(table_in(workspace, "package")?, "edition")
}

/// An error with no place of its own.
fn unplaced(fault: ManifestFault) -> ManifestError {
    ManifestError { fault, at: None }
}

/// What a document says of its package.
fn read_document(
    alloc: Global,
    document: &Table,
) -> Result<Result<Manifest, ManifestError>, AllocError> {
    let old = table_in(document, "project");
    let Some(package) = table_in(document, "package").or(old) else {
        return Ok(Err(unplaced(ManifestFault::WantedPackage)));
    };
    let Some(name) = text_in(package, "name") else {
        return Ok(Err(unplaced(ManifestFault::WantedName)));
    };
    let empty = Table::new(alloc);
    let library = table_in(document, "lib").unwrap_or(&empty);
    let edition = edition_of(package);
    let dependencies = read_dependencies(alloc, document)?;
    Ok(Ok(Manifest {
        name: String::from_str(alloc, name)?,
        edition: String::from_str(alloc, edition)?,
        is_workspace_edition: table_in(package, "edition").is_some(),
        lib_path: owned(alloc, text_in(library, "path"))?,
        lib_name: owned(alloc, text_in(library, "name"))?,
        is_proc_macro: is_proc_macro(library),
        bin_paths: read_bin_paths(alloc, document)?,
        features: read_features(alloc, document, dependencies.as_slice())?,
        dependencies,
    }))
}

/// Reads a manifest.
pub fn read_manifest(
    alloc: Global,
    text: &str,
) -> Result<Result<Manifest, ManifestError>, AllocError> {
    match toml::table_from_str(alloc, text) {
        Ok(document) => read_document(alloc, &document),
        Err(error) if error.is_memory() => Err(AllocError),
        Err(error) => Ok(Err(ManifestError {
            fault: ManifestFault::Toml(error),
            at: error.span().map(|span| span.start),
        })),
    }
}

/// The edition that a manifest has for the members of its workspace. None where it has none, and where
/// it is not read.
pub fn read_workspace_edition(alloc: Global, text: &str) -> Result<Option<String>, AllocError> {
    match toml::table_from_str(alloc, text) {
        Ok(document) => owned(alloc, workspace_edition(&document)),
        Err(error) if error.is_memory() => Err(AllocError),
        Err(_) => Ok(None),
    }
}
