//! What is reported of a crate, and what its run left over.

use def_workspace::Collected;
use hir_def::{Interner, ModPath, ShownDiagnostic, ShownPath};
use std::alloc::AllocError;
use std::fmt::Write;

/// Writes the path of what is left over.
fn write_left(session: &Interner, path: &ModPath, lines: &mut String) -> Result<(), AllocError> {
    let path = ShownPath { path, session };
    writeln!(lines, "left: {path}")
}

/// Writes what is reported of a crate, and the paths of the imports and macros that are left over.
pub fn write_reports(
    session: &Interner,
    collected: &Collected,
    lines: &mut String,
) -> Result<(), AllocError> {
    let map = &collected.def_map;
    for diagnostic in &collected.diagnostics {
        let shown = ShownDiagnostic {
            diagnostic,
            map,
            session,
        };
        writeln!(lines, "{shown}")?;
    }
    for import in &collected.outcome.imports {
        write_left(session, &import.path, lines)?;
    }
    for left in &collected.outcome.macros {
        write_left(session, &left.path, lines)?;
    }
    Ok(())
}
