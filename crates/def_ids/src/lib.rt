//! Numbers of maps, modules and definitions, where definitions stand, and what expands macros.
#![tactic(auto)]

mod edition;
mod expander;
mod ids;
mod locs;

pub use edition::Edition;
pub use expander::{BuiltinAttr, CustomProcMacroExpander, MacroExpander, ProcMacroUse};
pub use ids::{
    Adt, BuiltinDeriveImplId, ConstId, Def, EnumId, ExternBlockId, ExternCrateId, FunctionId,
    GlobId, ImplId, ImportId, ItemContainerId, Macro2Id, MacroId, MacroRulesId, MapId, ModuleId,
    ProcMacroId, StaticId, StructId, TraitId, TypeAliasId, UnionId, UseId, VariantId,
};
pub use locs::{
    BuiltinDeriveImplLoc, ConstLoc, EnumLoc, ExternBlockLoc, ExternCrateLoc, FunctionLoc, ImplLoc,
    Macro2Loc, MacroRulesLoc, ProcMacroLoc, StaticLoc, StructLoc, TraitLoc, TypeAliasLoc, UnionLoc,
    UseLoc,
};
