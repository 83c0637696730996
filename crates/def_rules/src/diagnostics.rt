//! What a run reports.

use crate::outcome::LeftMacroKind;
use def_ids::ModuleId;
use item_tree::{AttrId, CfgExpr, FileAstId, InFile, ModPath, Seq, Text};

/// Why the macro of an attribute expands to nothing. It is the part of `ExpandErrorKind` that
/// rust-analyzer's collector makes itself.
#[derive(Clone, Copy, PartialEq, Eq, Debug)]
pub enum ExpandErrorKind {
    /// No procedural macro of its name was built for its crate.
    MissingProcMacroExpander,
    /// The macro is switched off.
    MacroDisabled,
    /// All attribute macros are switched off.
    ProcMacroAttrExpansionDisabled,
}

/// What a diagnostic says.
#[derive(Clone, PartialEq, Eq, Debug, Drop)]
pub enum DefDiagnosticKind {
    /// A module whose file was not found: the files that were looked for.
    UnresolvedModule { candidates: Seq<Text> },
    /// An import that did not resolve: its number in its `use` item.
    UnresolvedImport { index: u32 },
    /// An extern crate that was not found.
    UnresolvedExternCrate,
    /// A macro that no pass could expand: how it is called, and the path that was not found.
    UnresolvedMacroCall { kind: LeftMacroKind, path: ModPath },
    /// A derive attribute on an item that is no struct, union or enum.
    InvalidDeriveTarget { id: AttrId },
    /// A derive attribute without a list of paths.
    MalformedDerive { id: AttrId },
    /// A macro that is marked as builtin, and that no builtin implements.
    UnimplementedBuiltinMacro,
    /// A procedural macro that nothing expands: the path of its attribute, and why.
    MacroError { path: ModPath, err: ExpandErrorKind },
    /// An item or a file that is not compiled: the condition that is not met.
    UnconfiguredCode { cfg: CfgExpr },
}

/// A diagnostic: the module and the item that it speaks of, and what it says.
#[derive(Clone, PartialEq, Eq, Debug, Drop)]
pub struct DefDiagnostic {
    pub module: ModuleId,
    pub ast_id: InFile<FileAstId>,
    pub kind: DefDiagnosticKind,
}

/// The diagnostics of a run, in order.
pub type DefDiagnostics = Seq<DefDiagnostic>;
