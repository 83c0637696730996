//! What is reported of diagnostics and of faults of texts.

use crate::opaque::Opaque;
use crate::parts::{diagnostics_of, faults_of, number_of};
use crate::reports::{At, Reports};
use def_rules::{DefDiagnostic, DefDiagnosticKind};
use item_tree::{Crate, Text};
use rust_codebase::{Codebase, CollectedCrate, Fault, FaultKind, FaultPlace};
use rust_names::Names;
use std::alloc::AllocError;

/// Adds the files that were looked for.
fn add_files(what: &mut String, candidates: &[Text]) -> Result<(), AllocError> {
    let mut between = ": ";
    for file in candidates {
        what.push_str(between)?;
        what.push_str(file.as_str())?;
        between = ", ";
    }
    Ok(())
}

/// The name of the item of a diagnostic.
fn name_of<'a, C: Codebase>(names: &Names<'a, C>, diagnostic: &DefDiagnostic) -> &'a str {
    names.places.name_of_item(diagnostic.ast_id).unwrap_or("?")
}

/// What is said of a module without a file.
fn module_text<C: Codebase>(
    names: &Names<'_, C>,
    name: &str,
    candidates: &[Text],
) -> Result<String, AllocError> {
    let mut what = format!(in names.alloc; "no file of the module `{name}` is found")?;
    add_files(&mut what, candidates)?;
    Ok(what)
}

/// What is said of a crate that is not found.
fn crate_text<C: Codebase>(names: &Names<'_, C>, name: &str) -> Result<String, AllocError> {
    format!(in names.alloc; "the crate `{name}` is not found")
}

/// What is said of a fault of a text.
fn fault_text<C: Codebase>(names: &Names<'_, C>, kind: FaultKind) -> Result<String, AllocError> {
    format!(in names.alloc; "{kind}")
}

/// Whether an extern crate by this name is known not to be given.
fn is_absent<C: Codebase>(
    names: &Names<'_, C>,
    opaque: &Opaque,
    diagnostic: &DefDiagnostic,
    text: &str,
) -> bool {
    match names.find_name(text) {
        Some(name) => opaque.is_absent(diagnostic.module.map.krate, name),
        None => false,
    }
}

impl Reports {
    /// Adds a report of an item in these words.
    fn add_words<C: Codebase>(
        &mut self,
        names: &Names<'_, C>,
        diagnostic: &DefDiagnostic,
        kind: &'static str,
        words: &str,
    ) -> Result<(), AllocError> {
        let what = String::from_str(names.alloc, words)?;
        self.add_at_item(names, diagnostic.ast_id, kind, what)
    }

    /// Adds a report of a module without a file.
    fn add_module<C: Codebase>(
        &mut self,
        names: &Names<'_, C>,
        diagnostic: &DefDiagnostic,
        candidates: &[Text],
    ) -> Result<(), AllocError> {
        let what = module_text(names, name_of(names, diagnostic), candidates)?;
        self.add_at_item(names, diagnostic.ast_id, "unresolved-module", what)
    }

    /// Adds a report of an extern crate, if it is not one that is known to be absent.
    fn add_extern_crate<C: Codebase>(
        &mut self,
        names: &Names<'_, C>,
        opaque: &Opaque,
        diagnostic: &DefDiagnostic,
    ) -> Result<(), AllocError> {
        let text = name_of(names, diagnostic);
        if is_absent(names, opaque, diagnostic, text) {
            return Ok(());
        }
        let what = crate_text(names, text)?;
        self.add_at_item(names, diagnostic.ast_id, "unresolved-extern-crate", what)
    }

    /// Adds a report of a diagnostic.
    fn add_diagnostic<C: Codebase>(
        &mut self,
        names: &Names<'_, C>,
        opaque: &Opaque,
        diagnostic: &DefDiagnostic,
    ) -> Result<(), AllocError> {
        match &diagnostic.kind {
            DefDiagnosticKind::UnresolvedImport { index } => {
                self.add_import(names, opaque, diagnostic, *index)
            }
            DefDiagnosticKind::UnresolvedMacroCall { kind, path } => {
                self.add_macro(names, opaque, diagnostic, *kind, path)
            }
            DefDiagnosticKind::UnresolvedModule { candidates } => {
                self.add_module(names, diagnostic, candidates.as_slice())
            }
            DefDiagnosticKind::UnresolvedExternCrate => {
                self.add_extern_crate(names, opaque, diagnostic)
            }
            DefDiagnosticKind::MacroError { path, err } => {
                self.add_error(names, opaque, diagnostic, path, *err)
            }
            DefDiagnosticKind::InvalidDeriveTarget { id: _ } => {
                let words = "a derive stands on no struct, union or enum";
                self.add_words(names, diagnostic, "invalid-derive", words)
            }
            DefDiagnosticKind::MalformedDerive { id: _ } => {
                let words = "a derive has no list of paths";
                self.add_words(names, diagnostic, "malformed-derive", words)
            }
            DefDiagnosticKind::UnimplementedBuiltinMacro => {
                let words = "no builtin implements a macro that is marked as one";
                self.add_words(names, diagnostic, "unimplemented-builtin", words)
            }
            // What cfg leaves out is no mistake.
            DefDiagnosticKind::UnconfiguredCode { cfg: _ } => Ok(()),
        }
    }

    /// Adds a report of a fault of a text.
    fn add_told<C: Codebase>(
        &mut self,
        names: &Names<'_, C>,
        at: At,
        kind: FaultKind,
    ) -> Result<(), AllocError> {
        self.add(at, "fault", fault_text(names, kind)?)
    }

    /// Adds a report of a fault of a text, if that is one of the crate.
    fn add_fault<C: Codebase>(
        &mut self,
        names: &Names<'_, C>,
        fault: &Fault,
        home: Crate,
    ) -> Result<(), AllocError> {
        match &fault.place {
            FaultPlace::At(place) => {
                if names.places.crate_of(place.source) != Some(home) {
                    self.count_elsewhere();
                    return Ok(());
                }
                let spot = names.places.spot_of_place(*place)?;
                self.add_told(names, At::Spot(spot), fault.kind)
            }
            FaultPlace::Path(path) => self.add_told(names, At::Path(path.clone()?), fault.kind),
        }
    }

    /// Adds what is reported of these diagnostics.
    fn add_each<C: Codebase>(
        &mut self,
        names: &Names<'_, C>,
        opaque: &Opaque,
        diagnostics: &[DefDiagnostic],
    ) -> Result<(), AllocError> {
        for diagnostic in diagnostics {
            self.add_diagnostic(names, opaque, diagnostic)?;
        }
        Ok(())
    }

    /// Adds a report of each fault of the texts of a crate.
    fn add_faults<C: Codebase>(
        &mut self,
        names: &Names<'_, C>,
        faults: &[Fault],
        home: Crate,
    ) -> Result<(), AllocError> {
        for fault in faults {
            self.add_fault(names, fault, home)?;
        }
        Ok(())
    }

    /// Adds what is reported of a crate.
    fn add_crate<C: Codebase>(
        &mut self,
        names: &Names<'_, C>,
        opaque: &Opaque,
        collected: &CollectedCrate,
    ) -> Result<(), AllocError> {
        let home = number_of(collected);
        self.add_faults(names, faults_of(names), home)?;
        self.add_each(names, opaque, diagnostics_of(collected))?;
        self.note_derives(names, home)
    }

    /// Adds what is reported of a crate, and puts it in order.
    pub(crate) fn find<C: Codebase>(
        &mut self,
        names: &Names<'_, C>,
        opaque: &Opaque,
        collected: &CollectedCrate,
    ) -> Result<(), AllocError> {
        self.add_crate(names, opaque, collected)?;
        self.sort(names)
    }
}
