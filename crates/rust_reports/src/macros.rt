//! What is reported of macros that are not found or not run.

use crate::opaque::Opaque;
use crate::reports::{Reports, at_spot};
use def_rules::{DefDiagnostic, ExpandErrorKind, LeftMacroKind};
use item_tree::{FileAstId, InFile, ModPath};
use rust_codebase::Codebase;
use rust_names::{Names, Spot};
use std::alloc::AllocError;

/// How a macro is called, and what stands behind its path.
fn call_words(kind: LeftMacroKind) -> (&'static str, &'static str) {
    match kind {
        LeftMacroKind::Fn => ("macro", "!"),
        LeftMacroKind::Derive(_, _) => ("derive", ""),
        LeftMacroKind::Attr(_) => ("attribute", ""),
    }
}

/// A macro as it is called.
fn macro_text<C: Codebase>(
    names: &Names<'_, C>,
    kind: LeftMacroKind,
    path: &ModPath,
) -> Result<String, AllocError> {
    let (word, mark) = call_words(kind);
    let text = names.codebase().path_text(path)?;
    format!(in names.alloc; "the {word} `{text}{mark}`")
}

/// Where the last name of a path stands in the attributes of an item, or else the item.
fn spot_in_attributes<C: Codebase>(
    names: &Names<'_, C>,
    opaque: &Opaque,
    position: InFile<FileAstId>,
    path: &ModPath,
) -> Option<Spot> {
    match opaque.word(position, path) {
        Some(token) => Some(names.places.spot_of_token(token)),
        None => names.places.spot_of_item(position),
    }
}

/// Where a macro is called.
fn spot_of_call<C: Codebase>(
    names: &Names<'_, C>,
    opaque: &Opaque,
    position: InFile<FileAstId>,
    kind: LeftMacroKind,
    path: &ModPath,
) -> Option<Spot> {
    match kind {
        LeftMacroKind::Fn => names.places.spot_of_item(position),
        LeftMacroKind::Derive(_, _) | LeftMacroKind::Attr(_) => {
            spot_in_attributes(names, opaque, position, path)
        }
    }
}

/// Whether a macro that is not found may be one that is not given, without its being said: one of
/// the standard library, or an attribute beside such a macro.
fn is_silent(
    opaque: &Opaque,
    diagnostic: &DefDiagnostic,
    kind: LeftMacroKind,
    path: &ModPath,
) -> bool {
    let is_attribute = matches!(kind, LeftMacroKind::Attr(_));
    opaque.is_standard(diagnostic.module, path)
        || is_attribute && opaque.has_item(diagnostic.ast_id)
}

/// What is said of a macro that is not found.
fn lost_text<C: Codebase>(
    names: &Names<'_, C>,
    kind: LeftMacroKind,
    path: &ModPath,
) -> Result<String, AllocError> {
    let text = macro_text(names, kind, path)?;
    format!(in names.alloc; "{text} is not found")
}

/// What is said of a procedural macro that is switched off.
fn disabled_text<C: Codebase>(names: &Names<'_, C>, path: &ModPath) -> Result<String, AllocError> {
    let text = names.codebase().path_text(path)?;
    format!(in names.alloc; "the macro `{text}` is switched off")
}

/// A procedural macro by its path.
fn procedural_text<C: Codebase>(
    names: &Names<'_, C>,
    path: &ModPath,
) -> Result<String, AllocError> {
    let text = names.codebase().path_text(path)?;
    format!(in names.alloc; "the procedural macro `{text}`")
}

impl Reports {
    /// Counts a macro of a crate that is not given.
    fn count_left_out<C: Codebase>(
        &mut self,
        names: &Names<'_, C>,
        kind: LeftMacroKind,
        path: &ModPath,
    ) -> Result<(), AllocError> {
        self.leave_out();
        self.count_not_run(macro_text(names, kind, path)?)
    }

    /// Adds a report of a macro that is neither found nor one that is not given.
    fn add_lost<C: Codebase>(
        &mut self,
        names: &Names<'_, C>,
        opaque: &Opaque,
        diagnostic: &DefDiagnostic,
        kind: LeftMacroKind,
        path: &ModPath,
    ) -> Result<(), AllocError> {
        let what = lost_text(names, kind, path)?;
        let at = at_spot(spot_of_call(names, opaque, diagnostic.ast_id, kind, path));
        self.add(at, "unresolved-macro", what)
    }

    /// Adds a report of a macro that is not found.
    pub(crate) fn add_macro<C: Codebase>(
        &mut self,
        names: &Names<'_, C>,
        opaque: &Opaque,
        diagnostic: &DefDiagnostic,
        kind: LeftMacroKind,
        path: &ModPath,
    ) -> Result<(), AllocError> {
        if opaque.has_macro(names, diagnostic.module, path) {
            return self.count_left_out(names, kind, path);
        }
        if is_silent(opaque, diagnostic, kind, path) {
            self.leave_out();
            return Ok(());
        }
        self.add_lost(names, opaque, diagnostic, kind, path)
    }

    /// Adds a report of a procedural macro that is switched off.
    fn add_disabled<C: Codebase>(
        &mut self,
        names: &Names<'_, C>,
        opaque: &Opaque,
        diagnostic: &DefDiagnostic,
        path: &ModPath,
    ) -> Result<(), AllocError> {
        let what = disabled_text(names, path)?;
        let at = at_spot(spot_in_attributes(names, opaque, diagnostic.ast_id, path));
        self.add(at, "macro-error", what)
    }

    /// Counts a procedural macro that is not run.
    fn count_procedural<C: Codebase>(
        &mut self,
        names: &Names<'_, C>,
        path: &ModPath,
    ) -> Result<(), AllocError> {
        self.leave_out();
        self.count_not_run(procedural_text(names, path)?)
    }

    /// Adds a report of a procedural macro that nothing expands.
    pub(crate) fn add_error<C: Codebase>(
        &mut self,
        names: &Names<'_, C>,
        opaque: &Opaque,
        diagnostic: &DefDiagnostic,
        path: &ModPath,
        err: ExpandErrorKind,
    ) -> Result<(), AllocError> {
        match err {
            ExpandErrorKind::MacroDisabled => self.add_disabled(names, opaque, diagnostic, path),
            ExpandErrorKind::MissingProcMacroExpander
            | ExpandErrorKind::ProcMacroAttrExpansionDisabled => {
                self.count_procedural(names, path)
            }
        }
    }
}
