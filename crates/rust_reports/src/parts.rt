//! Parts of what was collected of a crate.

use def_rules::{DefDiagnostic, Edge, LeftImport};
use item_tree::Crate;
use rust_codebase::{Codebase, CollectedCrate, Fault};
use rust_names::Names;

/// The crates, each behind those that it depends on.
pub(crate) fn crates_of<'a, C: Codebase>(names: &Names<'a, C>) -> &'a [CollectedCrate] {
    names.codebase().crates()
}

/// What is wrong with the texts.
pub(crate) fn faults_of<'a, C: Codebase>(names: &Names<'a, C>) -> &'a [Fault] {
    names.codebase().faults()
}

/// The number of a crate.
pub(crate) fn number_of(collected: &CollectedCrate) -> Crate {
    collected.krate
}

/// The imports that are left over of a crate.
pub(crate) fn imports_of(collected: &CollectedCrate) -> &[LeftImport] {
    collected.outcome.imports.as_slice()
}

/// The globs of a crate that take names from modules of the crate itself.
pub(crate) fn globs_of(collected: &CollectedCrate) -> &[Edge] {
    collected.outcome.edges.as_slice()
}

/// The diagnostics of a crate.
pub(crate) fn diagnostics_of(collected: &CollectedCrate) -> &[DefDiagnostic] {
    collected.diagnostics.as_slice()
}
