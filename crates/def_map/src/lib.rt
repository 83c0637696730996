//! Maps of definitions: the modules of a crate or a block, what they hold, and what is seen of them.
#![tactic(auto)]

mod block;
mod def_map;
mod def_map_reads;
mod item_scope;
mod macro_resolver;
mod path_resolution;
mod positions;
mod scope_bindings;
mod source_database;

pub use block::BlockInfo;
pub use def_map::DefMap;
pub use def_modules::{
    DefMapCrateData, DeriveCall, DeriveHelper, DeriveKey, DeriveMacroInvocation, DeriveRecords,
    ExternPreludeEntry, HelpersRange, Invocation, LocalDefMap, MapData, ModuleData, ModuleOrigin,
    Position, RareParts, ScopeData, UnstableFeatures,
};
pub use item_scope::{ItemScope, Resolutions, UnnamedTraits};
pub use macro_resolver::MacroResolver;
pub use path_resolution::{
    ResolvePaths, finished_map, resolve_module, resolve_path_fp_with_macro, resolve_path_macro,
    resolve_path_scope, resolve_visibility,
};
pub use scope_bindings::{BoundNames, Entries, NamesOf, ScopeEntry};
pub use source_database::SourceDatabase;

// What a database is asked and answers, and what paths mean.
pub use def_oracle::{
    AssocItem, AssocItemKind, AssocItemsOwner, AssocList, AttrCallQuery, CallAnswer, CallQuery,
    CrateData, Dependency, DeriveCallQuery, EnumVariant, LangCrate, UnresolvedMacro,
};
pub use def_paths::{
    Asked, BuiltinShadowMode, FoundName, Item, MacroSubNs, PathAnswer, PerNs, PrefixInfo,
    ReachedFixedPoint, ResolveMode, ResolvePathResult, Table, World, is_map_among, public_item,
};

// The ids, visibilities and bindings that maps are made of.
pub use def_bindings::{
    Binding, BindingTable, EdgeTo, Entry, ImportOrExternCrate, ModuleTree, NameBindings, Namespace,
    Slot, VisOrder, Visibility,
};
pub use def_ids::{
    Adt, BuiltinAttr, BuiltinDeriveImplId, BuiltinDeriveImplLoc, ConstId, ConstLoc,
    CustomProcMacroExpander, Def, Edition, EnumId, EnumLoc, ExternBlockId, ExternBlockLoc,
    ExternCrateId, ExternCrateLoc, FunctionId, FunctionLoc, GlobId, ImplId, ImplLoc, ImportId,
    ItemContainerId, Macro2Id, Macro2Loc, MacroExpander, MacroId, MacroRulesId, MacroRulesLoc,
    MapId, ModuleId, ProcMacroId, ProcMacroLoc, ProcMacroUse, StaticId, StaticLoc, StructId,
    StructLoc, TraitId, TraitLoc, TypeAliasId, TypeAliasLoc, UnionId, UnionLoc, UseId, UseLoc,
    VariantId,
};
pub use def_interner::{Interner, Location, LocationId, MacroDefId, MacroDefKind};
pub use def_tables::{Found, Kept, NumberedTable, ScopeTable, VisNumber};
