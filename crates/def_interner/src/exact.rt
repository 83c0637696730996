//! Types whose `==` tells any two of their values apart.
ghost use Rattle.def_interner.specs.Exact.{IsExact};
ghost use Rattle.std.proofs.Common.{rules};

mod macro_locs;

use def_ids::{
    BuiltinDeriveImplLoc, ConstLoc, CustomProcMacroExpander, Edition, EnumLoc, ExternBlockLoc,
    ExternCrateLoc, FunctionLoc, ImplLoc, MacroExpander, ModuleId, ProcMacroUse, StaticLoc,
    StructLoc, TraitLoc, TypeAliasLoc, UnionLoc, UseLoc,
};
use item_tree::{FileAstId, InFile, MacroRulesLocFlags};

/// A type whose `==` tells any two of its values apart.
pub trait Exact: Eq {
    ghost exact: { IsExact Self.eq };
}

impl Exact for FunctionLoc {
    ghost exact = { Prim.search rules };
}

impl Exact for StructLoc {
    ghost exact = { Prim.search rules };
}

impl Exact for UnionLoc {
    ghost exact = { Prim.search rules };
}

impl Exact for EnumLoc {
    ghost exact = { Prim.search rules };
}

impl Exact for ConstLoc {
    ghost exact = { Prim.search rules };
}

impl Exact for StaticLoc {
    ghost exact = { Prim.search rules };
}

impl Exact for TraitLoc {
    ghost exact = { Prim.search rules };
}

impl Exact for TypeAliasLoc {
    ghost exact = { Prim.search rules };
}

impl Exact for ImplLoc {
    ghost exact = { Prim.search rules };
}

impl Exact for UseLoc {
    ghost exact = { Prim.search rules };
}

impl Exact for ExternCrateLoc {
    ghost exact = { Prim.search rules };
}

impl Exact for ExternBlockLoc {
    ghost exact = { Prim.search rules };
}

impl Exact for BuiltinDeriveImplLoc {
    ghost exact = { Prim.search rules };
}

impl Exact for ModuleId {
    ghost exact = { Prim.search rules };
}

impl Exact for InFile<FileAstId> {
    ghost exact = { Prim.search rules };
}

impl Exact for MacroExpander {
    ghost exact = { Prim.search rules };
}

impl Exact for MacroRulesLocFlags {
    ghost exact = { Prim.search rules };
}

impl Exact for CustomProcMacroExpander {
    ghost exact = { Prim.search rules };
}

impl Exact for ProcMacroUse {
    ghost exact = { Prim.search rules };
}

impl Exact for Edition {
    ghost exact = { Prim.search rules };
}
