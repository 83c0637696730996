//! A database that answers from fields, so that no time goes into its answers.
ghost use Rattle.std.specs.Prelude.{◌≡◌};
ghost use Rattle.defmap_bench.specs.Database.{answers_of, number_at, states_of};

use bitflags::Flags;
use def_ids::{BuiltinAttr, EnumLoc};
use def_map::{
    AssocItemsOwner, AssocList, AttrCallQuery, CallAnswer, CallQuery, CrateData, DefMap,
    DeriveCallQuery, EnumVariant, LocalDefMap, MacroResolver, SourceDatabase, UnresolvedMacro,
};
use either::Either;
use item_tree::{
    BlockId, Crate, FileAstId, FileId, HirFileId, InFile, ItemTree, MacroCallId, MacroCallStyles,
    Name, Seq, TreeId, sym,
};
use std::alloc::{AllocError, Global};

/// One crate in one file, which may have one trait. Each question about a file or a crate is about these. The number of a
/// call or of a derive in the file is that of its item, and in what another call gives it is the
/// next one after that call's: so no more than one call or derive may stand there, and not two calls
/// may have one number. Each builtin attribute macro reads derives.
#[derive(Drop)]
pub struct OneFile {
    pub tree: ItemTree,
    pub krate: CrateData,
    /// What calls give, by their numbers.
    pub expansions: Vec<ItemTree>,
    /// The trait, once the crate is collected.
    pub one_trait: Option<OneTrait>,
}

/// The maps of a crate that is collected, the items of its one trait, and what each call among these
/// gives.
#[derive(Drop)]
pub struct OneTrait {
    pub def_map: DefMap,
    pub local_def_map: LocalDefMap,
    pub written: AssocList,
    pub given: AssocList,
}

impl OneFile {
    /// The crate of a tree, whose calls give nothing yet.
    pub fn new(alloc: Global, tree: ItemTree) -> OneFile {
        OneFile {
            tree,
            krate: CrateData {
                root_file: FileId(0),
                proc_macro: false,
                lang: None,
                deps: Seq::from_vec(Vec::new(alloc)),
            },
            expansions: Vec::new(alloc),
            one_trait: None,
        }
    }
}

/// The number of the call of an item.
fn number_of(position: InFile<FileAstId>) -> usize
    ensures { result ≡ number_at position.file position.value.0 }
{
    match position.file {
        HirFileId::File(_) => position.value.0,
        HirFileId::Macro(call) => call.0.saturating_add(1),
    }
}

impl SourceDatabase for OneFile {
    ghost oracle = { answers_of };

    ghost states = { states_of };

    fn item_tree(&self, id: TreeId) -> Option<&ItemTree> {
        match id.file {
            HirFileId::File(_) => Some(&self.tree),
            HirFileId::Macro(call) => self.expansions.get(call.0),
        }
    }

    fn crate_data(&self, _krate: Crate) -> Option<&CrateData> {
        Some(&self.krate)
    }

    fn crate_def_map(&self, _krate: Crate) -> Option<&DefMap> {
        match &self.one_trait {
            Some(one) => Some(&one.def_map),
            None => None,
        }
    }

    fn outer_map(&self, _block: BlockId) -> Option<&DefMap> {
        None
    }

    fn local_def_map(&self, _krate: Crate) -> Option<&LocalDefMap> {
        match &self.one_trait {
            Some(one) => Some(&one.local_def_map),
            None => None,
        }
    }

    fn resolve_path(&self, _anchor: FileId, _path: &str) -> Option<FileId> {
        None
    }

    fn original_file(&self, _file: HirFileId) -> FileId {
        FileId(0)
    }

    fn expansion_depth(&self, _file: HirFileId) -> u32 {
        0
    }

    fn macro_call<R: MacroResolver>(
        &self,
        alloc: Global,
        query: CallQuery<'_>,
        resolver: &R,
    ) -> Result<Result<CallAnswer, UnresolvedMacro>, AllocError> {
        match resolver.resolve(query.path) {
            Some(_) => Ok(Ok(CallAnswer {
                value: Some(MacroCallId(number_of(query.position))),
                err: None,
                inner: Seq::from_vec(Vec::new(alloc)),
            })),
            None => Ok(Err(UnresolvedMacro {
                path: query.path.clone()?,
            })),
        }
    }

    fn make_attr_call(&self, _query: AttrCallQuery<'_>) -> MacroCallId {
        MacroCallId(0)
    }

    fn make_derive_call(&self, query: DeriveCallQuery) -> MacroCallId {
        MacroCallId(number_of(query.position))
    }

    fn is_include(&self, _call: MacroCallId) -> bool {
        false
    }

    fn enum_variants(&self, _loc: &EnumLoc) -> Option<&[EnumVariant]> {
        None
    }

    fn assoc_items(&self, owner: AssocItemsOwner) -> Option<&AssocList> {
        match (&self.one_trait, owner) {
            (Some(one), AssocItemsOwner::Trait(_)) => Some(&one.written),
            (Some(one), AssocItemsOwner::Expansion(_)) => Some(&one.given),
            _ => None,
        }
    }

    fn rule_styles(&self, _position: InFile<FileAstId>, _krate: Crate) -> MacroCallStyles {
        MacroCallStyles::FN_LIKE.union(MacroCallStyles::DERIVE)
    }

    fn proc_macros(&self, _krate: Crate) -> &[(Name, u32, bool)] {
        &[]
    }

    fn find_builtin_macro(&self, _name: Name) -> Option<Either<u32, u32>> {
        None
    }

    fn find_builtin_derive(&self, _name: Name) -> Option<u32> {
        None
    }

    fn find_builtin_attr(&self, _name: Name) -> Option<BuiltinAttr> {
        Some(BuiltinAttr::Derive)
    }

    fn builtin_type(&self, _name: Name) -> Option<u32> {
        None
    }

    fn is_builtin_attr(&self, name: Name) -> bool {
        name == sym::RUSTC_BUILTIN_MACRO
    }

    fn has_builtin_derive_impl(&self, _derive: u32) -> bool {
        false
    }

    fn derive_traits(&self, _derive: u32) -> &[u32] {
        &[]
    }

    fn cfg_flag(&self, _krate: Crate, _name: Name) -> bool {
        false
    }

    fn builtin_derive_fast_path(&self) -> bool {
        false
    }

    fn expand_proc_attr_macros(&self) -> bool {
        false
    }
}
