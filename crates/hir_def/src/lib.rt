//! The whole library as one crate: item trees and ids, the session, maps and their readers, the
//! trait of the oracle, a database that is one, and the collector.
#![tactic(auto)]

// Item trees, and what they are built of.
pub use item_tree::{
    Attr, AttrId, AttrInput, AttrQuery, Attrs, AttrsAfter, AttrsOrCfg, BlockId, CfgExpr, Crate,
    CtorVisibility, ExpandTo, FileAstId, FileId, HirFileId, ImportAlias, ImportKind, InFile,
    ItemNode, ItemTree, KNOWN_NAMES, Leaf, MacroCallId, MacroCallStyles, MacroRulesLocFlags,
    ModContents, ModItemId, ModItemKind, ModPath, Name, NameTable, PathKind, RawVisibility, Seq,
    SyntaxContext, Text, TopSubtree, TopSubtreeBuilder, TreeFault, TreeId, TtElement, TtIter,
    TtValues, UseImport, sym,
};

// The session, and the ids that it gives out, with the locations that they stand for.
pub use def_ids::{
    Adt, BuiltinAttr, BuiltinDeriveImplId, BuiltinDeriveImplLoc, ConstId, ConstLoc,
    CustomProcMacroExpander, Def, Edition, EnumId, EnumLoc, ExternBlockId, ExternBlockLoc,
    ExternCrateId, ExternCrateLoc, FunctionId, FunctionLoc, GlobId, ImplId, ImplLoc, ImportId,
    ItemContainerId, Macro2Id, Macro2Loc, MacroExpander, MacroId, MacroRulesId, MacroRulesLoc,
    MapId, ModuleId, ProcMacroId, ProcMacroLoc, ProcMacroUse, StaticId, StaticLoc, StructId,
    StructLoc, TraitId, TraitLoc, TypeAliasId, TypeAliasLoc, UnionId, UnionLoc, UseId, UseLoc,
    VariantId,
};
pub use def_interner::{Interner, Location, LocationId, MacroDefId, MacroDefKind, Numbering};

// Maps: what is seeded, what they hold, and what names and paths mean in them.
pub use def_bindings::{
    Binding, BindingTable, EdgeTo, Entry, ImportOrExternCrate, ModuleTree, NameBindings, Namespace,
    Slot, VisOrder, Visibility,
};
pub use def_map::{
    BlockInfo, BoundNames, BuiltinShadowMode, DefMap, Entries, Item, ItemScope, MacroSubNs,
    NamesOf, PerNs, PrefixInfo, ReachedFixedPoint, Resolutions, ResolveMode, ResolvePathResult,
    ResolvePaths, ScopeEntry, Table, UnnamedTraits,
};
pub use def_modules::{
    DefMapCrateData, DeriveCall, DeriveHelper, DeriveKey, DeriveMacroInvocation, DeriveRecords,
    ExternPreludeEntry, HelpersRange, Invocation, LocalDefMap, MapData, ModuleData, ModuleOrigin,
    Position, RareParts, ScopeData, UnstableFeatures,
};

// Tables of bindings, and how names travel along the edges of globs.
pub use def_parts::Globs;
pub use def_tables::{Found, Kept, NumberedTable, ScopeTable, VisNumber};

// The oracle: its trait, what it is asked and answers, and a database to fill.
pub use def_database::{
    AssocKey, Builtins, ByMacro, Calls, CfgFlag, Crates, Database, DeriveCallKey, DerivePlace,
    Files, Types,
};
pub use def_map::{
    AssocItem, AssocItemKind, AssocItemsOwner, AssocList, AttrCallQuery, CallAnswer, CallQuery,
    CrateData, Dependency, DeriveCallQuery, EnumVariant, LangCrate, MacroResolver, SourceDatabase,
    UnresolvedMacro,
};
pub use either::Either;

// What is read of files and attributes: where the file of a module lies, and what a function of a
// procedural macro declares.
pub use def_parts::{
    DirPath, ModDir, ProcMacroDef, ProcMacroKind, parse_macro_name_and_helper_attrs,
    parse_proc_macro_decl, parse_proc_macro_derive,
};

// The collector, and what it answers.
pub use def_collector::{AttrResolution, Collected, ResolvedAttr, collect_defs};
pub use def_rules::{
    DefDiagnostic, DefDiagnosticKind, DefDiagnostics, Edge, ExpandErrorKind, LeftImport, LeftMacro,
    LeftMacroKind, Outcome,
};

// What a module sees, with what brings each name; and all of this as text.
pub use def_display::{
    ShownDef, ShownDiagnostic, ShownModule, ShownName, ShownPath, ShownVisibility,
};
pub use visible_names::{BroughtBy, VisibleName, visible_names};

// The items of traits and impls.
pub use def_assoc::{AssocItemId, AssocTypes, ImplItems, MacroCalls, TraitItems};
