//! Numbers of maps, modules and definitions.
ghost use Rattle.std.specs.Prelude.{◌≡◌};

use std::hash::{Hash, Hasher};
use tree_ids::{BlockId, Crate};

/// A map of definitions: that of a crate, or that of one of its blocks.
#[derive(Clone, Copy, PartialEq, Eq, Hash, Debug)]
pub struct MapId {
    pub krate: Crate,
    pub block: Option<BlockId>,
}

/// A module: its map, and its place there. Place 0 is the root.
#[derive(Clone, Copy, PartialEq, Eq, Debug)]
pub struct ModuleId {
    pub map: MapId,
    pub index: usize,
}

/// Modules are mostly looked up among those of one map, so the hash leaves the block out. Equal keys
/// still compare whole.
impl Hash for ModuleId {
    ghost use Rattle.std.proofs.Common.{rules};
    ghost use Rattle.std.specs.Prelude.{◌++◌};
    ghost use Rattle.std.specs.Cmp.Rules.{hashing};
    ghost use Rattle.std.specs.Hash as fed;

    ghost hash_input = { λ m. fed.usize m.map.krate.0 ++ fed.usize m.index };

    ghost respects_eq = { Prim.search (hashing, rules) };

    fn hash<H: Hasher>(&self, state: &mut H) {
        self.map.krate.0.hash(state);
        self.index.hash(state);
    }
}

/// A function.
#[derive(Clone, Copy, PartialEq, Eq, Hash, Debug)]
pub struct FunctionId(pub usize);

/// A struct.
#[derive(Clone, Copy, PartialEq, Eq, Hash, Debug)]
pub struct StructId(pub usize);

/// A union.
#[derive(Clone, Copy, PartialEq, Eq, Hash, Debug)]
pub struct UnionId(pub usize);

/// An enum.
#[derive(Clone, Copy, PartialEq, Eq, Hash, Debug)]
pub struct EnumId(pub usize);

/// A variant of an enum. The oracle numbers these.
#[derive(Clone, Copy, PartialEq, Eq, Hash, Debug)]
pub struct VariantId(pub usize);

/// A constant.
#[derive(Clone, Copy, PartialEq, Eq, Hash, Debug)]
pub struct ConstId(pub usize);

/// A static.
#[derive(Clone, Copy, PartialEq, Eq, Hash, Debug)]
pub struct StaticId(pub usize);

/// A trait.
#[derive(Clone, Copy, PartialEq, Eq, Hash, Debug)]
pub struct TraitId(pub usize);

/// A type alias.
#[derive(Clone, Copy, PartialEq, Eq, Hash, Debug)]
pub struct TypeAliasId(pub usize);

/// An impl.
#[derive(Clone, Copy, PartialEq, Eq, Hash, Debug)]
pub struct ImplId(pub usize);

/// A `use` item.
#[derive(Clone, Copy, PartialEq, Eq, Hash, Debug)]
pub struct UseId(pub usize);

/// An `extern crate` item.
#[derive(Clone, Copy, PartialEq, Eq, Hash, Debug)]
pub struct ExternCrateId(pub usize);

/// An extern block.
#[derive(Clone, Copy, PartialEq, Eq, Hash, Debug)]
pub struct ExternBlockId(pub usize);

/// A `macro_rules` macro.
#[derive(Clone, Copy, PartialEq, Eq, Hash, Debug)]
pub struct MacroRulesId(pub usize);

/// A `macro` item.
#[derive(Clone, Copy, PartialEq, Eq, Hash, Debug)]
pub struct Macro2Id(pub usize);

/// A procedural macro.
#[derive(Clone, Copy, PartialEq, Eq, Hash, Debug)]
pub struct ProcMacroId(pub usize);

/// An impl that a builtin derive gives.
#[derive(Clone, Copy, PartialEq, Eq, Hash, Debug)]
pub struct BuiltinDeriveImplId(pub usize);

/// A macro.
#[derive(Clone, Copy, PartialEq, Eq, Hash, Debug)]
pub enum MacroId {
    MacroRules(MacroRulesId),
    Macro2(Macro2Id),
    ProcMacro(ProcMacroId),
}

/// What a name stands for.
#[derive(Clone, Copy, PartialEq, Eq, Hash, Debug)]
pub enum Def {
    Module(ModuleId),
    Function(FunctionId),
    Struct(StructId),
    Union(UnionId),
    Enum(EnumId),
    Variant(VariantId),
    Const(ConstId),
    Static(StaticId),
    Trait(TraitId),
    TypeAlias(TypeAliasId),
    /// A builtin type, by the oracle's number.
    Builtin(u32),
    Macro(MacroId),
}

impl Def {
    ghost use Rattle.def_ids.specs.Ids.{module_of_def};

    /// The module that it is, if it is one.
    pub fn as_module(&self) -> Option<ModuleId>
        ensures { result ≡ module_of_def self.now }
    {
        match self {
            Def::Module(module) => Some(*module),
            _ => None,
        }
    }
}

/// What an item stands in.
#[derive(Clone, Copy, PartialEq, Eq, Hash, Debug)]
pub enum ItemContainerId {
    Module(ModuleId),
    ExternBlock(ExternBlockId),
    Trait(TraitId),
    Impl(ImplId),
}

/// A type that a derive may be asked for.
#[derive(Clone, Copy, PartialEq, Eq, Hash, Debug)]
pub enum Adt {
    Struct(StructId),
    Union(UnionId),
    Enum(EnumId),
}

/// An import: its `use` item, and its number there.
#[derive(Clone, Copy, PartialEq, Eq, Hash, Debug)]
pub struct ImportId {
    pub use_id: UseId,
    pub idx: u32,
}

/// A glob import: its `use` item, and its number there.
#[derive(Clone, Copy, PartialEq, Eq, Hash, Debug)]
pub struct GlobId {
    pub use_id: UseId,
    pub idx: u32,
}

impl ModuleId {
    ghost use Rattle.def_ids.specs.Ids.{is_block_root, crate_root};

    /// The root of a crate's map.
    pub fn crate_root(krate: Crate) -> ModuleId
        ensures { result ≡ crate_root krate }
    {
        ModuleId {
            map: MapId { krate, block: None },
            index: 0,
        }
    }

    /// Whether this is the root of a block's map.
    pub fn is_block_root(self) -> bool
        ensures { result ≡ is_block_root self }
    {
        self.index == 0 && self.map.block.is_some()
    }
}
