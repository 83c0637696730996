//! A database whose answers are data.
ghost use Rattle.std.proofs.Common.{rules};
ghost use Rattle.std.specs.Prelude.{◌≡◌, IfOk};
ghost use Rattle.def_database.specs.Database.{answers_of, assoc_key, is_read_attr, nothing_known, states_of};

use crate::by_macro::{ByMacro, answer_at};
use def_ids::{BuiltinAttr, EnumLoc, ImplId, MacroId, TraitId};
use def_interner::Exact;
use def_map::{
    AssocItemsOwner, AssocList, AttrCallQuery, CallAnswer, CallQuery, CrateData, DefMap,
    DeriveCallQuery, EnumVariant, LocalDefMap, MacroResolver, SourceDatabase, UnresolvedMacro,
};
use either::Either;
use indexmap::{IndexMap, IndexSet};
use item_tree::{
    AttrId, BlockId, Crate, FileAstId, FileId, HirFileId, InFile, ItemTree, MacroCallId,
    MacroCallStyles, Name, Seq, TreeId,
};
use std::alloc::{AllocError, Global};

/// Item trees, the file that each path leads to from a file, and how deep in expansions of macros a
/// file lies.
pub struct Files {
    pub trees: IndexMap<TreeId, ItemTree>,
    pub paths: IndexMap<FileId, IndexMap<String, FileId>>,
    pub depths: IndexMap<HirFileId, u32>,
}

impl Drop for Files {
    fn drop(self) {
        let Files {
            trees: _,
            paths: _,
            depths: _,
        } = self;
    }
}

/// What is known of crates, the procedural macros that were built for each, and the maps that were
/// collected earlier.
pub struct Crates {
    pub known: IndexMap<Crate, CrateData>,
    pub proc_macros: IndexMap<Crate, Vec<(Name, u32, bool)>>,
    pub maps: IndexMap<Crate, DefMap>,
    pub local_maps: IndexMap<Crate, LocalDefMap>,
    pub outer_maps: IndexMap<BlockId, DefMap>,
    pub flags: IndexSet<CfgFlag>,
}

impl Drop for Crates {
    fn drop(self) {
        let Crates {
            known: _,
            proc_macros: _,
            maps: _,
            local_maps: _,
            outer_maps: _,
            flags: _,
        } = self;
    }
}

/// What associated items are found by.
#[derive(Clone, Copy, PartialEq, Eq, Hash)]
pub enum AssocKey {
    Trait(TraitId),
    Impl(ImplId),
    Expansion(MacroCallId),
}

/// The variants of the enum at each position, associated items, and builtin types.
pub struct Types {
    pub variants: IndexMap<InFile<FileAstId>, Vec<EnumVariant>>,
    pub assoc_items: IndexMap<AssocKey, AssocList>,
    pub builtin: IndexMap<Name, u32>,
}

impl Drop for Types {
    fn drop(self) {
        let Types {
            variants: _,
            assoc_items: _,
            builtin: _,
        } = self;
    }
}

/// The builtin macros, derives and attribute macros, by their names. Of the macros those on the left
/// are expanded as they stand, those on the right are eager. Attributes that are no macros are inert;
/// those that definitions are collected by are so without being listed. A derive that gives impls with
/// no expansion has their traits, by its number.
pub struct Builtins {
    pub macros: IndexMap<Name, Either<u32, u32>>,
    pub derives: IndexMap<Name, u32>,
    pub derive_traits: IndexMap<u32, Vec<u32>>,
    pub derive_fast_path: bool,
    pub attrs: IndexMap<Name, BuiltinAttr>,
    pub inert: IndexSet<Name>,
}

impl Drop for Builtins {
    fn drop(self) {
        let Builtins {
            macros: _,
            derives: _,
            derive_traits: _,
            derive_fast_path: _,
            attrs: _,
            inert: _,
        } = self;
    }
}

/// Where a derive stands: at a place of an attribute's list.
#[derive(Clone, Copy, PartialEq, Eq, Hash)]
pub struct DerivePlace {
    /// The item that has the attribute.
    pub position: InFile<FileAstId>,
    pub attr_id: AttrId,
    pub pos: usize,
}

impl Exact for DerivePlace {
    ghost exact = { Prim.search rules };
}

/// The call of a derive at a place of an attribute's list, of the macro that is found for its path.
#[derive(Clone, Copy)]
pub struct DeriveCallKey {
    /// The item that has the attribute.
    pub position: InFile<FileAstId>,
    pub attr_id: AttrId,
    pub pos: usize,
    pub macro_id: MacroId,
}

/// What macro calls, attribute macros and derives give where they stand, by the macros that are found,
/// whether attribute macros are expanded, which calls are calls of `include!`, and in which ways the
/// macro at a position may be called.
pub struct Calls {
    pub answers: IndexMap<InFile<FileAstId>, ByMacro<CallAnswer>>,
    pub attrs: IndexMap<InFile<FileAstId>, ByMacro<MacroCallId>>,
    pub expand_proc_attr_macros: bool,
    pub derives: IndexMap<DerivePlace, ByMacro<MacroCallId>>,
    pub includes: IndexSet<MacroCallId>,
    pub styles: IndexMap<InFile<FileAstId>, MacroCallStyles>,
}

impl Drop for Calls {
    fn drop(self) {
        let Calls {
            answers: _,
            attrs: _,
            expand_proc_attr_macros: _,
            derives: _,
            includes: _,
            styles: _,
        } = self;
    }
}

/// A condition of one word under which a crate is compiled.
#[derive(Clone, Copy, PartialEq, Eq, Hash)]
pub struct CfgFlag {
    pub krate: Crate,
    pub name: Name,
}

/// A database whose answers were written down. A macro call asks the resolver for its path alone,
/// and gives nothing where nothing was written down of the macro that is found; an attribute macro or
/// a derive then gives a call without items. A macro is called as `m!(..)` where nothing else was
/// written down, and a file lies in no expansion. The source file of each expansion is file 0.
pub struct Database {
    pub files: Files,
    pub crates: Crates,
    pub types: Types,
    pub builtins: Builtins,
    pub calls: Calls,
}

impl Drop for Database {
    fn drop(self) {
        let Database {
            files: _,
            crates: _,
            types: _,
            builtins: _,
            calls: _,
        } = self;
    }
}

impl Database {
    /// A database that knows nothing: what is asked of it has no answer, or the one that stands for
    /// none, as a call without items.
    pub fn new(alloc: Global) -> Database
        ensures { answers_of result ≡ nothing_known }
    {
        Database {
            files: Files {
                trees: IndexMap::new(alloc),
                paths: IndexMap::new(alloc),
                depths: IndexMap::new(alloc),
            },
            crates: Crates {
                known: IndexMap::new(alloc),
                proc_macros: IndexMap::new(alloc),
                maps: IndexMap::new(alloc),
                local_maps: IndexMap::new(alloc),
                outer_maps: IndexMap::new(alloc),
                flags: IndexSet::new(alloc),
            },
            types: Types {
                variants: IndexMap::new(alloc),
                assoc_items: IndexMap::new(alloc),
                builtin: IndexMap::new(alloc),
            },
            builtins: Builtins {
                macros: IndexMap::new(alloc),
                derives: IndexMap::new(alloc),
                derive_traits: IndexMap::new(alloc),
                derive_fast_path: false,
                attrs: IndexMap::new(alloc),
                inert: IndexSet::new(alloc),
            },
            calls: Calls {
                answers: IndexMap::new(alloc),
                attrs: IndexMap::new(alloc),
                expand_proc_attr_macros: false,
                derives: IndexMap::new(alloc),
                includes: IndexSet::new(alloc),
                styles: IndexMap::new(alloc),
            },
        }
    }
}

/// Whether definitions are collected by attributes of this name.
fn is_read_attr(name: Name) -> bool
    ensures { result ≡ is_read_attr name }
{
    matches!(name.0, 8..=18 | 20..=24)
}

/// What the associated items of a trait, an impl or an expansion are found by.
pub(crate) fn assoc_key(owner: AssocItemsOwner) -> AssocKey
    ensures { result ≡ assoc_key owner }
{
    match owner {
        AssocItemsOwner::Trait(id) => AssocKey::Trait(id),
        AssocItemsOwner::Impl(id) => AssocKey::Impl(id),
        AssocItemsOwner::Expansion(call) => AssocKey::Expansion(call),
    }
}

/// A copy of an answer.
fn copy_of(answer: &CallAnswer) -> Result<CallAnswer, AllocError>
    ensures { IfOk result (λ copy. copy ≡ answer.now) }
{
    Ok(CallAnswer {
        value: answer.value,
        err: answer.err,
        inner: answer.inner.clone()?,
    })
}

impl SourceDatabase for Database {
    ghost oracle = { answers_of };

    ghost states = { states_of };

    fn item_tree(&self, id: TreeId) -> Option<&ItemTree> {
        self.files.trees.get(&id)
    }

    fn crate_data(&self, krate: Crate) -> Option<&CrateData> {
        self.crates.known.get(&krate)
    }

    fn crate_def_map(&self, krate: Crate) -> Option<&DefMap> {
        self.crates.maps.get(&krate)
    }

    fn outer_map(&self, block: BlockId) -> Option<&DefMap> {
        self.crates.outer_maps.get(&block)
    }

    fn local_def_map(&self, krate: Crate) -> Option<&LocalDefMap> {
        self.crates.local_maps.get(&krate)
    }

    fn resolve_path(&self, anchor: FileId, path: &str) -> Option<FileId> {
        match self.files.paths.get(&anchor) {
            Some(paths) => paths.get(path).copied(),
            None => None,
        }
    }

    fn original_file(&self, file: HirFileId) -> FileId {
        match file {
            HirFileId::File(file) => file,
            HirFileId::Macro(_) => FileId(0),
        }
    }

    fn expansion_depth(&self, file: HirFileId) -> u32 {
        match self.files.depths.get(&file) {
            Some(depth) => *depth,
            None => 0,
        }
    }

    fn macro_call<R: MacroResolver>(
        &self,
        alloc: Global,
        query: CallQuery<'_>,
        resolver: &R,
    ) -> Result<Result<CallAnswer, UnresolvedMacro>, AllocError> {
        let Some(found) = resolver.resolve(query.path) else {
            return Ok(Err(UnresolvedMacro {
                path: query.path.clone()?,
            }));
        };
        match answer_at(&self.calls.answers, query.position, found.id) {
            Some(answer) => Ok(Ok(copy_of(answer)?)),
            None => Ok(Ok(CallAnswer {
                value: None,
                err: None,
                inner: Seq::from_vec(Vec::new(alloc)),
            })),
        }
    }

    fn make_attr_call(&self, query: AttrCallQuery<'_>) -> MacroCallId {
        match answer_at(&self.calls.attrs, query.position, query.macro_def.id) {
            Some(call) => *call,
            None => MacroCallId(usize::MAX),
        }
    }

    fn make_derive_call(&self, query: DeriveCallQuery) -> MacroCallId {
        let place = DerivePlace {
            position: query.position,
            attr_id: query.attr_id,
            pos: query.pos,
        };
        match answer_at(&self.calls.derives, place, query.macro_def.id) {
            Some(call) => *call,
            None => MacroCallId(usize::MAX),
        }
    }

    fn is_include(&self, call: MacroCallId) -> bool {
        self.calls.includes.contains(&call)
    }

    fn enum_variants(&self, loc: &EnumLoc) -> Option<&[EnumVariant]> {
        match self.types.variants.get(&loc.position) {
            Some(variants) => Some(variants.as_slice()),
            None => None,
        }
    }

    fn assoc_items(&self, owner: AssocItemsOwner) -> Option<&AssocList> {
        self.types.assoc_items.get(&assoc_key(owner))
    }

    fn rule_styles(&self, position: InFile<FileAstId>, _krate: Crate) -> MacroCallStyles {
        match self.calls.styles.get(&position) {
            Some(styles) => *styles,
            None => MacroCallStyles::FN_LIKE,
        }
    }

    fn proc_macros(&self, krate: Crate) -> &[(Name, u32, bool)] {
        match self.crates.proc_macros.get(&krate) {
            Some(macros) => macros.as_slice(),
            None => &[],
        }
    }

    fn find_builtin_macro(&self, name: Name) -> Option<Either<u32, u32>> {
        self.builtins.macros.get(&name).copied()
    }

    fn find_builtin_derive(&self, name: Name) -> Option<u32> {
        self.builtins.derives.get(&name).copied()
    }

    fn find_builtin_attr(&self, name: Name) -> Option<BuiltinAttr> {
        self.builtins.attrs.get(&name).copied()
    }

    fn builtin_type(&self, name: Name) -> Option<u32> {
        self.types.builtin.get(&name).copied()
    }

    fn is_builtin_attr(&self, name: Name) -> bool {
        is_read_attr(name) || self.builtins.inert.contains(&name)
    }

    fn has_builtin_derive_impl(&self, derive: u32) -> bool {
        self.builtins.derive_traits.contains_key(&derive)
    }

    fn derive_traits(&self, derive: u32) -> &[u32] {
        match self.builtins.derive_traits.get(&derive) {
            Some(traits) => traits.as_slice(),
            None => &[],
        }
    }

    fn cfg_flag(&self, krate: Crate, name: Name) -> bool {
        self.crates.flags.contains(&CfgFlag { krate, name })
    }

    fn builtin_derive_fast_path(&self) -> bool {
        self.builtins.derive_fast_path
    }

    fn expand_proc_attr_macros(&self) -> bool {
        self.calls.expand_proc_attr_macros
    }
}
