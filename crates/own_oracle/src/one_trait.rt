//! The oracle: it knows one file, and answers every question about it from its fields.
ghost use Rattle.own_oracle.specs.OneTrait.{answers_of, states_of};

use hir_def::{
    AssocItem, AssocItemKind, AssocItemsOwner, AssocList, AttrCallQuery, Attrs, AttrsOrCfg,
    BlockId, BuiltinAttr, CallAnswer, CallQuery, Crate, CrateData, DefMap, DeriveCallQuery, Either,
    EnumLoc, EnumVariant, FileAstId, FileId, HirFileId, InFile, Interner, ItemNode, ItemTree,
    LocalDefMap, MacroCallId, MacroCallStyles, MacroResolver, ModItemId, ModItemKind, ModPath,
    Name, PathKind, RawVisibility, Seq, SourceDatabase, SyntaxContext, TreeFault, TreeId,
    UnresolvedMacro,
};
use std::alloc::{AllocError, Global};

/// `macro_rules! m { .. } pub trait T { fn a(); m!(); }`, where `m!();` gives `fn b();`.
#[derive(Drop)]
pub struct OneTrait {
    pub tree: ItemTree,
    pub krate: CrateData,
    /// The items of the trait.
    pub written: AssocList,
    /// What the macro gives.
    pub given: AssocList,
    /// The maps of the crate, once it is collected.
    pub maps: Option<(DefMap, LocalDefMap)>,
}

/// No attributes.
fn no_attrs(alloc: Global) -> AttrsOrCfg {
    AttrsOrCfg::Enabled(Attrs {
        list: Seq::from_vec(Vec::new(alloc)),
    })
}

/// An item of the file, in the order of the text.
fn item(alloc: Global, number: usize, kind: ModItemKind) -> ItemNode {
    ItemNode {
        ast_id: FileAstId(number),
        attrs: Some(no_attrs(alloc)),
        kind,
    }
}

/// The items of the file: a macro, and a trait.
fn file_tree(
    alloc: Global,
    session: &mut Interner,
) -> Result<Result<ItemTree, TreeFault>, AllocError> {
    let macro_rules = ModItemKind::MacroRules {
        name: session.intern_name("m")?,
    };
    let tr = ModItemKind::Trait {
        name: session.intern_name("T")?,
        visibility: RawVisibility::Public,
    };
    let items = vec![in alloc; item(alloc, 0, macro_rules), item(alloc, 1, tr)]?;
    let top = vec![in alloc; ModItemId(0), ModItemId(1)]?;
    Ok(ItemTree::new(items, top, no_attrs(alloc)))
}

/// `fn a();`, of a name.
fn function(session: &mut Interner, name: &str) -> Result<AssocItemKind, AllocError> {
    Ok(AssocItemKind::Fn(Some(session.intern_name(name)?)))
}

/// `m!();`, of a name.
fn call(alloc: Global, session: &mut Interner, name: &str) -> Result<AssocItemKind, AllocError> {
    let segments = vec![in alloc; session.intern_name(name)?]?;
    Ok(AssocItemKind::MacroCall {
        path: Some(ModPath {
            kind: PathKind::Plain,
            segments: Seq::from_vec(segments),
        }),
        ctxt: SyntaxContext(0),
    })
}

/// Items of a trait or of what a macro gives, with the numbers from one on.
fn assoc_list(
    alloc: Global,
    first: usize,
    kinds: Vec<AssocItemKind>,
) -> Result<AssocList, AllocError> {
    let mut items = Vec::new(alloc);
    for kind in kinds {
        items.push(AssocItem {
            ast_id: FileAstId(first.saturating_add(items.len())),
            attrs: Some(no_attrs(alloc)),
            kind,
        })?;
    }
    Ok(AssocList {
        is_alias: false,
        items: Seq::from_vec(items),
    })
}

impl OneTrait {
    pub const CRATE: Crate = Crate(0);

    pub const FILE: FileId = FileId(0);

    /// The crate, which is still to be collected. Its names are numbers of the session.
    pub fn new(
        alloc: Global,
        session: &mut Interner,
    ) -> Result<Result<OneTrait, TreeFault>, AllocError> {
        let tree = match file_tree(alloc, session)? {
            Ok(tree) => tree,
            Err(fault) => return Ok(Err(fault)),
        };
        let written = vec![in alloc; function(session, "a")?, call(alloc, session, "m")?]?;
        let given = vec![in alloc; function(session, "b")?]?;
        Ok(Ok(OneTrait {
            tree,
            krate: CrateData {
                root_file: OneTrait::FILE,
                proc_macro: false,
                lang: None,
                deps: Seq::from_vec(Vec::new(alloc)),
            },
            written: assoc_list(alloc, 2, written)?,
            given: assoc_list(alloc, 0, given)?,
            maps: None,
        }))
    }
}

impl SourceDatabase for OneTrait {
    ghost oracle = { λ one. answers_of one.tree one.krate one.written one.given one.maps };

    ghost states = { λ one. states_of one.maps };

    fn item_tree(&self, id: TreeId) -> Option<&ItemTree> {
        match id.file {
            HirFileId::File(_) => Some(&self.tree),
            HirFileId::Macro(_) => None,
        }
    }

    fn crate_data(&self, _krate: Crate) -> Option<&CrateData> {
        Some(&self.krate)
    }

    fn crate_def_map(&self, _krate: Crate) -> Option<&DefMap> {
        match &self.maps {
            Some(maps) => Some(&maps.0),
            None => None,
        }
    }

    fn outer_map(&self, _block: BlockId) -> Option<&DefMap> {
        None
    }

    fn local_def_map(&self, _krate: Crate) -> Option<&LocalDefMap> {
        match &self.maps {
            Some(maps) => Some(&maps.1),
            None => None,
        }
    }

    fn resolve_path(&self, _anchor: FileId, _path: &str) -> Option<FileId> {
        None
    }

    fn original_file(&self, _file: HirFileId) -> FileId {
        OneTrait::FILE
    }

    fn expansion_depth(&self, file: HirFileId) -> u32 {
        match file {
            HirFileId::File(_) => 0,
            HirFileId::Macro(_) => 1,
        }
    }

    // Each call of the one macro is the same.
    fn macro_call<R: MacroResolver>(
        &self,
        alloc: Global,
        query: CallQuery<'_>,
        resolver: &R,
    ) -> Result<Result<CallAnswer, UnresolvedMacro>, AllocError> {
        match resolver.resolve(query.path) {
            Some(_) => Ok(Ok(CallAnswer {
                value: Some(MacroCallId(0)),
                err: None,
                inner: Seq::from_vec(Vec::new(alloc)),
            })),
            None => Ok(Err(UnresolvedMacro {
                path: query.path.clone()?,
            })),
        }
    }

    fn make_attr_call(&self, _query: AttrCallQuery<'_>) -> MacroCallId {
        MacroCallId(1)
    }

    fn make_derive_call(&self, _query: DeriveCallQuery) -> MacroCallId {
        MacroCallId(1)
    }

    fn is_include(&self, _call: MacroCallId) -> bool {
        false
    }

    fn enum_variants(&self, _loc: &EnumLoc) -> Option<&[EnumVariant]> {
        None
    }

    fn assoc_items(&self, owner: AssocItemsOwner) -> Option<&AssocList> {
        match owner {
            AssocItemsOwner::Trait(_) => Some(&self.written),
            AssocItemsOwner::Impl(_) => None,
            AssocItemsOwner::Expansion(_) => Some(&self.given),
        }
    }

    fn rule_styles(&self, _position: InFile<FileAstId>, _krate: Crate) -> MacroCallStyles {
        MacroCallStyles::FN_LIKE
    }

    fn proc_macros(&self, _krate: Crate) -> &[(Name, u32, bool)] {
        &[]
    }

    fn find_builtin_macro(&self, _name: Name) -> Option<Either<u32, u32>> {
        None
    }

    fn find_builtin_derive(&self, _name: Name) -> Option<u32> {
        None
    }

    fn find_builtin_attr(&self, _name: Name) -> Option<BuiltinAttr> {
        None
    }

    fn builtin_type(&self, _name: Name) -> Option<u32> {
        None
    }

    fn is_builtin_attr(&self, _name: Name) -> bool {
        false
    }

    fn has_builtin_derive_impl(&self, _derive: u32) -> bool {
        false
    }

    fn derive_traits(&self, _derive: u32) -> &[u32] {
        &[]
    }

    fn cfg_flag(&self, _krate: Crate, _name: Name) -> bool {
        false
    }

    fn builtin_derive_fast_path(&self) -> bool {
        false
    }

    fn expand_proc_attr_macros(&self) -> bool {
        false
    }
}
