//! Whether calls and derives that are left over find no macro, and the last diagnostics are those
//! of what is left over.

use crate::answer::{Answer, bound_name};
use def_map::BuiltinShadowMode;
use def_rules::{DefDiagnostic, DefDiagnosticKind, LeftMacro, LeftMacroKind};
use item_tree::{ExpandTo, ModItemKind, ModPath, Name, PathKind, SyntaxContext};
use macro_calls::{WrittenCall, call_answer, call_query, derive_macro};
use std::alloc::{AllocError, Global};

/// Adds the report on a macro that is left over, if there is one. Answers whether it is rightly so:
/// it is not found, or gives an error alone. No item may wait for an attribute.
fn add_macro(
    alloc: Global,
    answer: &Answer<'_>,
    left: &LeftMacro,
    reports: &mut Vec<DefDiagnostic>,
) -> Result<bool, AllocError> {
    let world = &answer.world;
    let is_missing = match left.kind {
        LeftMacroKind::Attr(_) => return Ok(false),
        LeftMacroKind::Derive(..) => derive_macro(world, left.module, &left.path).is_none(),
        LeftMacroKind::Fn => {
            let written = WrittenCall {
                path: &left.path,
                expand_to: ExpandTo::Items,
                ctxt: SyntaxContext(0),
            };
            let query = call_query(world.map, left.ast_id, left.depth, written);
            let mode = BuiltinShadowMode::Module;
            if let Ok(found) = call_answer(alloc, world, left.module, mode, query)? {
                return Ok(found.value.is_none());
            }
            true
        }
    };
    let (kind, path) = (left.kind, left.path.clone()?);
    reports.push(DefDiagnostic {
        module: left.module,
        ast_id: left.ast_id,
        kind: DefDiagnosticKind::UnresolvedMacroCall { kind, path },
    })?;
    Ok(is_missing)
}

/// The name of an extern crate that is reported as not found.
fn missing_crate(answer: &Answer<'_>, diagnostic: &DefDiagnostic) -> Option<Name> {
    if diagnostic.kind != DefDiagnosticKind::UnresolvedExternCrate {
        return None;
    }
    match &answer.node(diagnostic.ast_id)?.kind {
        ModItemKind::ExternCrate { name, alias, .. } => bound_name(*name, *alias),
        _ => None,
    }
}

/// Whether the path of an import begins with an extern crate that is reported as not found.
fn is_excused(answer: &Answer<'_>, path: &ModPath) -> bool {
    let (PathKind::Plain | PathKind::Abs, [first, ..]) = (path.kind, path.segments.as_slice())
    else {
        return false;
    };
    for diagnostic in answer.collected.diagnostics.as_slice() {
        if missing_crate(answer, diagnostic) == Some(*first) {
            return true;
        }
    }
    false
}

/// Whether a diagnostic is one of those that only what is left over has.
fn is_of_left(diagnostic: &DefDiagnostic) -> bool {
    match &diagnostic.kind {
        DefDiagnosticKind::UnresolvedImport { .. } => true,
        DefDiagnosticKind::UnresolvedMacroCall { kind, .. } => {
            !matches!(kind, LeftMacroKind::Attr(_))
        }
        _ => false,
    }
}

/// Whether the last diagnostics are these, in order, and no other is one of what is left over.
fn are_last(diagnostics: &[DefDiagnostic], reports: &[DefDiagnostic]) -> bool {
    let mut count: usize = 0;
    for diagnostic in diagnostics {
        count = count.saturating_add(usize::from(is_of_left(diagnostic)));
    }
    let first = diagnostics.len().saturating_sub(reports.len());
    count == reports.len() && diagnostics.get(first..).unwrap_or(&[]) == reports
}

/// What does not hold of the macros that are left over and of the reports, if something does not.
/// A run that met the limit has left macros that it would find.
pub fn fault_of_reports(
    alloc: Global,
    answer: &Answer<'_>,
) -> Result<Option<&'static str>, AllocError> {
    let mut reports = Vec::new(alloc);
    for left in &answer.outcome().macros {
        if !add_macro(alloc, answer, left, &mut reports)? && !answer.outcome().limit_met {
            return Ok(Some("a macro that is left over is found"));
        }
    }
    for left in &answer.outcome().imports {
        if !is_excused(answer, &left.path) {
            reports.push(DefDiagnostic {
                module: left.module,
                ast_id: left.ast_id,
                kind: DefDiagnosticKind::UnresolvedImport { index: left.idx },
            })?;
        }
    }
    if are_last(answer.collected.diagnostics.as_slice(), reports.as_slice()) {
        Ok(None)
    } else {
        Ok(Some("the last diagnostics are not those of what is left over"))
    }
}
