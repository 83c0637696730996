//! Where definitions stand.
use crate::edition::Edition;
use crate::expander::{CustomProcMacroExpander, MacroExpander, ProcMacroUse};
use crate::ids::{Adt, ItemContainerId, ModuleId};
use tree_ids::{AttrId, FileAstId, InFile, MacroRulesLocFlags};

/// Where a function stands.
#[derive(Clone, Copy, PartialEq, Eq, Hash)]
pub struct FunctionLoc {
    pub container: ItemContainerId,
    pub position: InFile<FileAstId>,
}

/// Where a struct stands.
#[derive(Clone, Copy, PartialEq, Eq, Hash)]
pub struct StructLoc {
    pub container: ModuleId,
    pub position: InFile<FileAstId>,
}

/// Where a union stands.
#[derive(Clone, Copy, PartialEq, Eq, Hash)]
pub struct UnionLoc {
    pub container: ModuleId,
    pub position: InFile<FileAstId>,
}

/// Where an enum stands.
#[derive(Clone, Copy, PartialEq, Eq, Hash)]
pub struct EnumLoc {
    pub container: ModuleId,
    pub position: InFile<FileAstId>,
}

/// Where a constant stands.
#[derive(Clone, Copy, PartialEq, Eq, Hash)]
pub struct ConstLoc {
    pub container: ItemContainerId,
    pub position: InFile<FileAstId>,
}

/// Where a static stands.
#[derive(Clone, Copy, PartialEq, Eq, Hash)]
pub struct StaticLoc {
    pub container: ItemContainerId,
    pub position: InFile<FileAstId>,
}

/// Where a trait stands.
#[derive(Clone, Copy, PartialEq, Eq, Hash)]
pub struct TraitLoc {
    pub container: ModuleId,
    pub position: InFile<FileAstId>,
}

/// Where a type alias stands.
#[derive(Clone, Copy, PartialEq, Eq, Hash)]
pub struct TypeAliasLoc {
    pub container: ItemContainerId,
    pub position: InFile<FileAstId>,
}

/// Where an impl stands.
#[derive(Clone, Copy, PartialEq, Eq, Hash)]
pub struct ImplLoc {
    pub container: ModuleId,
    pub position: InFile<FileAstId>,
}

/// Where a `use` item stands.
#[derive(Clone, Copy, PartialEq, Eq, Hash)]
pub struct UseLoc {
    pub container: ModuleId,
    pub position: InFile<FileAstId>,
}

/// Where an `extern crate` item stands.
#[derive(Clone, Copy, PartialEq, Eq, Hash)]
pub struct ExternCrateLoc {
    pub container: ModuleId,
    pub position: InFile<FileAstId>,
}

/// Where an extern block stands.
#[derive(Clone, Copy, PartialEq, Eq, Hash)]
pub struct ExternBlockLoc {
    pub container: ModuleId,
    pub position: InFile<FileAstId>,
}

/// Where a `macro_rules` macro stands, and what it is.
#[derive(Clone, Copy, PartialEq, Eq, Hash)]
pub struct MacroRulesLoc {
    pub container: ModuleId,
    pub position: InFile<FileAstId>,
    pub expander: MacroExpander,
    pub flags: MacroRulesLocFlags,
    pub edition: Edition,
}

/// Where a `macro` item stands, and what it is.
#[derive(Clone, Copy, PartialEq, Eq, Hash)]
pub struct Macro2Loc {
    pub container: ModuleId,
    pub position: InFile<FileAstId>,
    pub expander: MacroExpander,
    pub flags: MacroRulesLocFlags,
    pub edition: Edition,
}

/// Where a procedural macro's function stands, and what the macro is.
#[derive(Clone, Copy, PartialEq, Eq, Hash)]
pub struct ProcMacroLoc {
    pub container: ModuleId,
    pub position: InFile<FileAstId>,
    pub expander: CustomProcMacroExpander,
    pub kind: ProcMacroUse,
    pub edition: Edition,
}

/// Of which derive a builtin impl is.
#[derive(Clone, Copy, PartialEq, Eq, Hash)]
pub struct BuiltinDeriveImplLoc {
    pub adt: Adt,
    /// The trait, by the oracle's number.
    pub derived: u32,
    /// The derive attribute.
    pub attr: AttrId,
    /// The place of the derive's path in the attribute's list.
    pub pos: usize,
}
