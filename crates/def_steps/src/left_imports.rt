//! Imports that are left over at the end of a run: their names are marked, and each is answered
//! and reported.
ghost use Rattle.std.specs.Prelude.{◌≡◌, ◌++◌, ◌∷◌, [], map, OnOk};
ghost use Rattle.std.specs.List.{flat_map};
ghost use Rattle.def_modules.specs.Maps.{map_state};
ghost use Rattle.def_rules.specs.Imports.{bound_name};
ghost use Rattle.def_rules.specs.Report.{import_report, left_import};
ghost use Rattle.def_crates.specs.Missing.{missing_in};
ghost use Rattle.def_steps.specs.Shown.{import_of};
ghost use Rattle.def_steps.specs.ImportLists.{left_in, marked_each, marked_once, unresolved_in};

use crate::directive::{Import, ImportDirective, import_name};
use def_crates::MissingCrates;
use def_map::MapData;
use def_rules::{DefDiagnostic, DefDiagnosticKind, LeftImport};
use std::alloc::AllocError;

/// Marks, answers and reports each import of a list that is unresolved, in order. On `Err` nothing
/// but safety is promised.
pub fn report_left_imports(
    def_map: &mut MapData,
    imports: &mut Vec<LeftImport>,
    diagnostics: &mut Vec<DefDiagnostic>,
    missing: &MissingCrates,
    directives: &[Option<ImportDirective>],
) -> Result<(), AllocError>
    ensures map { OnOk result (map_state def_map.new ≡ marked_each (unresolved_in directives.now) (map_state def_map.old)) }
    ensures imports { OnOk result (imports.new.items ≡ imports.old.items ++ map left_import (unresolved_in directives.now)) }
    ensures diagnostics { OnOk result (diagnostics.new.items ≡ diagnostics.old.items
        ++ flat_map (import_report (missing_in missing.now)) (unresolved_in directives.now)) }
{
    'left: for entry in directives {
        report_left_import(def_map, imports, diagnostics, missing, entry)?;
    }
    Ok(())
}

/// Marks, answers and reports an import, if it is there and unresolved. On `Err` nothing but safety
/// is promised.
fn report_left_import(
    def_map: &mut MapData,
    imports: &mut Vec<LeftImport>,
    diagnostics: &mut Vec<DefDiagnostic>,
    missing: &MissingCrates,
    entry: &Option<ImportDirective>,
) -> Result<(), AllocError>
    ensures map { OnOk result (map_state def_map.new ≡ marked_each (left_in entry.now) (map_state def_map.old)) }
    ensures imports { OnOk result (imports.new.items ≡ imports.old.items ++ map left_import (left_in entry.now)) }
    ensures diagnostics { OnOk result (diagnostics.new.items ≡ diagnostics.old.items
        ++ flat_map (import_report (missing_in missing.now)) (left_in entry.now)) }
{
    let Some(directive) = entry else {
        return Ok(());
    };
    if !directive.recorded.is_empty() {
        return Ok(());
    }
    report_unresolved_import(def_map, imports, diagnostics, missing, &directive.import)?;
    Ok(())
}

/// Marks the name that an unresolved import would have bound, and answers and reports the import.
/// On `Err` nothing but safety is promised.
fn report_unresolved_import(
    def_map: &mut MapData,
    imports: &mut Vec<LeftImport>,
    diagnostics: &mut Vec<DefDiagnostic>,
    missing: &MissingCrates,
    import: &Import,
) -> Result<(), AllocError>
    ensures map { OnOk result (map_state def_map.new ≡ marked_once (import_of import.now) (bound_name import.now.written.now) (map_state def_map.old)) }
    ensures imports { OnOk result (imports.new.items ≡ imports.old.items ++ left_import (import_of import.now) ∷ []) }
    ensures diagnostics { OnOk result (diagnostics.new.items ≡ diagnostics.old.items
        ++ import_report (missing_in missing.now) (import_of import.now)) }
{
    if let Some(Some(name)) = import_name(import.written) {
        def_map.mark_failed(import.module_id.index, name)?;
    }
    imports.push(LeftImport {
        module: import.module_id,
        ast_id: import.position,
        idx: import.written.idx,
        path: import.written.path.clone()?,
    })?;
    push_diagnostic(diagnostics, missing, import)?;
    Ok(())
}

/// Reports an unresolved import, unless its path begins with a crate that was not found. On `Err`
/// nothing but safety is promised.
fn push_diagnostic(
    diagnostics: &mut Vec<DefDiagnostic>,
    missing: &MissingCrates,
    import: &Import,
) -> Result<(), AllocError>
    ensures { OnOk result (diagnostics.new.items ≡ diagnostics.old.items
        ++ import_report (missing_in missing.now) (import_of import.now)) }
{
    if missing.excuses(&import.written.path) {
        return Ok(());
    }
    diagnostics.push(DefDiagnostic {
        module: import.module_id,
        ast_id: import.position,
        kind: DefDiagnosticKind::UnresolvedImport {
            index: import.written.idx,
        },
    })?;
    Ok(())
}
