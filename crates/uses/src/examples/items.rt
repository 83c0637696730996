//! Items, and the trees of files that hold them side by side.

use hir_def::{
    Attr, Attrs, AttrsOrCfg, CrateData, CtorVisibility, Database, Dependency, FileAstId, FileId,
    ImportAlias, ImportKind, Interner, ItemNode, ItemTree, ModContents, ModItemId, ModItemKind,
    ModPath, PathKind, RawVisibility, Seq, SyntaxContext, TreeFault, TreeId, UseImport,
};
use std::alloc::{AllocError, Global};

/// The path of some segments, as `a::S`.
pub fn path_of(
    alloc: Global,
    session: &mut Interner,
    segments: &[&str],
) -> Result<ModPath, AllocError> {
    let mut names = Seq::from_vec(Vec::new(alloc));
    for segment in segments {
        names.push(session.intern_name(segment)?)?;
    }
    Ok(ModPath {
        kind: PathKind::Plain,
        segments: names,
    })
}

/// A private `use` of a path, under a name of its own if one is given.
fn import(
    alloc: Global,
    path: ModPath,
    alias: Option<ImportAlias>,
) -> Result<ModItemKind, AllocError> {
    let import = UseImport {
        idx: 0,
        path,
        kind: ImportKind::Plain,
        alias,
    };
    Ok(ModItemKind::Use {
        visibility: RawVisibility::PubSelf,
        imports: Seq::from_vec(vec![in alloc; import]?),
    })
}

/// `use a::S;`, of a path.
pub fn import_of(
    alloc: Global,
    session: &mut Interner,
    segments: &[&str],
) -> Result<ModItemKind, AllocError> {
    import(alloc, path_of(alloc, session, segments)?, None)
}

/// `use S as T;`
pub fn import_as(
    alloc: Global,
    session: &mut Interner,
    name: &str,
    alias: &str,
) -> Result<ModItemKind, AllocError> {
    let path = path_of(alloc, session, &[name])?;
    let alias = session.intern_name(alias)?;
    import(alloc, path, Some(ImportAlias::Alias(alias)))
}

/// `pub struct S;`, which is a type and a value.
pub fn struct_of(session: &mut Interner, name: &str) -> Result<ModItemKind, AllocError> {
    Ok(ModItemKind::Struct {
        name: session.intern_name(name)?,
        visibility: RawVisibility::Public,
        ctor: CtorVisibility::ValueNsCtorWithVis(RawVisibility::Public),
    })
}

/// `pub trait T { .. }`, whose items are written down once it has a number.
pub fn trait_of(session: &mut Interner, name: &str) -> Result<ModItemKind, AllocError> {
    Ok(ModItemKind::Trait {
        name: session.intern_name(name)?,
        visibility: RawVisibility::Public,
    })
}

/// `mod a;`, whose items stand in a file of their own.
pub fn module_of(session: &mut Interner, name: &str) -> Result<ModItemKind, AllocError> {
    Ok(ModItemKind::Mod {
        name: session.intern_name(name)?,
        visibility: RawVisibility::PubSelf,
        contents: ModContents::Outline,
    })
}

/// An item as it is written: its attribute, if it has one, and what it is.
#[derive(Drop)]
pub struct WrittenItem {
    pub attr: Option<Attr>,
    pub kind: ModItemKind,
}

/// An item without an attribute.
pub fn plain(kind: ModItemKind) -> WrittenItem {
    WrittenItem { attr: None, kind }
}

/// `#[a]`, without arguments.
pub fn attr_of(alloc: Global, session: &mut Interner, name: &str) -> Result<Attr, AllocError> {
    Ok(Attr {
        path: path_of(alloc, session, &[name])?,
        input: None,
        ctxt: SyntaxContext(0),
        paths: None,
    })
}

/// Attributes: this one, or none.
fn attrs_of(alloc: Global, attr: Option<Attr>) -> Result<Attrs, AllocError> {
    let mut list = Vec::new(alloc);
    if let Some(attr) = attr {
        list.push(attr)?;
    }
    Ok(Attrs {
        list: Seq::from_vec(list),
    })
}

/// Appends an item that stands in no other, with the next number of the text.
fn push_item(
    alloc: Global,
    items: &mut Vec<ItemNode>,
    top: &mut Vec<ModItemId>,
    item: WrittenItem,
) -> Result<(), AllocError> {
    let WrittenItem { attr, kind } = item;
    let number = items.len();
    items.push(ItemNode {
        ast_id: FileAstId(number),
        attrs: Some(AttrsOrCfg::Enabled(attrs_of(alloc, attr)?)),
        kind,
    })?;
    top.push(ModItemId(number))?;
    Ok(())
}

/// The tree of a file or a block that holds these items, in the order of the text.
fn tree_of(
    alloc: Global,
    written: Vec<WrittenItem>,
) -> Result<Result<ItemTree, TreeFault>, AllocError> {
    let mut items = Vec::new(alloc);
    let mut top = Vec::new(alloc);
    for item in written {
        push_item(alloc, &mut items, &mut top, item)?;
    }
    let no_attrs = AttrsOrCfg::Enabled(attrs_of(alloc, None)?);
    Ok(ItemTree::new(items, top, no_attrs))
}

/// Writes down which items a file or a block holds. None of them holds others, so they are a tree.
pub fn add_items(
    alloc: Global,
    db: &mut Database,
    id: TreeId,
    items: Vec<WrittenItem>,
) -> Result<(), AllocError> {
    match tree_of(alloc, items)? {
        Ok(tree) => db.add_tree(id, tree),
        Err(_) => Ok(()),
    }
}

/// Writes down that a file or a block holds this item alone.
pub fn add_item(
    alloc: Global,
    db: &mut Database,
    id: TreeId,
    kind: ModItemKind,
) -> Result<(), AllocError> {
    add_items(alloc, db, id, vec![in alloc; plain(kind)]?)
}

/// What is known of a crate: its root file, and the crates that it depends on.
pub fn crate_data(root_file: FileId, deps: Seq<Dependency>) -> CrateData {
    CrateData {
        root_file,
        proc_macro: false,
        lang: None,
        deps,
    }
}
