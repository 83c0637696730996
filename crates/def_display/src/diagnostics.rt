//! Diagnostics as text.

use crate::modules::ShownModule;
use crate::paths::ShownPath;
use def_interner::Interner;
use def_map::DefMap;
use def_rules::{DefDiagnostic, DefDiagnosticKind, ExpandErrorKind, LeftMacroKind};
use item_tree::Text;
use std::fmt;

/// A diagnostic as a sentence that begins with the module that it speaks of, as
/// `crate::a: import 0 of a use is not found`.
#[derive(Clone, Copy)]
pub struct ShownDiagnostic<'a> {
    pub diagnostic: &'a DefDiagnostic,
    pub map: &'a DefMap,
    pub session: &'a Interner,
}

/// The files that were looked for.
fn write_files<W: fmt::Write>(f: &mut fmt::Formatter<W>, files: &[Text]) -> fmt::Result {
    f.write_str("no file of a module is found")?;
    let mut between = ": ";
    for file in files {
        f.write_str(between)?;
        f.write_str(file.as_str())?;
        between = ", ";
    }
    Ok(())
}

/// How a macro is called that is not found.
fn call_word(kind: LeftMacroKind) -> &'static str {
    match kind {
        LeftMacroKind::Fn => "macro",
        LeftMacroKind::Derive(_, _) => "derive",
        LeftMacroKind::Attr(_) => "attribute",
    }
}

/// Why a procedural macro expands to nothing.
fn error_words(err: ExpandErrorKind) -> &'static str {
    match err {
        ExpandErrorKind::MissingProcMacroExpander => "is not built",
        ExpandErrorKind::MacroDisabled => "is switched off",
        ExpandErrorKind::ProcMacroAttrExpansionDisabled => "is not expanded, as no attribute is",
    }
}

impl<'a> fmt::Display for ShownDiagnostic<'a> {
    fn fmt<W: fmt::Write>(&self, f: &mut fmt::Formatter<W>) -> fmt::Result {
        let session = self.session;
        let module = ShownModule {
            module: self.diagnostic.module,
            map: self.map,
            session,
        };
        write!(f, "{module}: ")?;
        match &self.diagnostic.kind {
            DefDiagnosticKind::UnresolvedModule { candidates } => {
                write_files(f, candidates.as_slice())
            }
            DefDiagnosticKind::UnresolvedImport { index } => {
                let index = *index;
                write!(f, "import {index} of a use is not found")
            }
            DefDiagnosticKind::UnresolvedExternCrate => f.write_str("an extern crate is not found"),
            DefDiagnosticKind::UnresolvedMacroCall { kind, path } => {
                let word = call_word(*kind);
                let path = ShownPath { path, session };
                write!(f, "the {word} {path} is not found")
            }
            DefDiagnosticKind::InvalidDeriveTarget { id: _ } => {
                f.write_str("a derive stands on no struct, union or enum")
            }
            DefDiagnosticKind::MalformedDerive { id: _ } => f.write_str(
                "a derive has no list of paths",
            ),
            DefDiagnosticKind::UnimplementedBuiltinMacro => {
                f.write_str("no builtin implements a macro that is marked as one")
            }
            DefDiagnosticKind::MacroError { path, err } => {
                let words = error_words(*err);
                let path = ShownPath { path, session };
                write!(f, "the macro of {path} {words}")
            }
            DefDiagnosticKind::UnconfiguredCode { cfg: _ } => {
                f.write_str("what is written here is not compiled")
            }
        }
    }
}
