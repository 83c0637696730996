//! Copies of associated items, for what has the same ones: the expansion of a macro call has those
//! that are items of its tree.

use def_oracle::{AssocItem, AssocItemKind, AssocList};
use item_tree::{Attr, AttrInput, Attrs, AttrsOrCfg, ItemNode, ItemTree, ModItemKind, Seq};
use std::alloc::{AllocError, Global};

fn copy_input(input: &AttrInput) -> Result<AttrInput, AllocError> {
    match input {
        AttrInput::Str(text) => Ok(AttrInput::Str(text.clone()?)),
        AttrInput::TokenTree(tokens) => Ok(AttrInput::TokenTree(tokens.clone()?)),
    }
}

fn copy_attr(attr: &Attr) -> Result<Attr, AllocError> {
    Ok(Attr {
        path: attr.path.clone()?,
        input: match &attr.input {
            Some(input) => Some(copy_input(input)?),
            None => None,
        },
        ctxt: attr.ctxt,
        paths: attr.paths.clone()?,
    })
}

fn copy_list(alloc: Global, attrs: &Attrs) -> Result<Attrs, AllocError> {
    let mut list = Seq::from_vec(Vec::new(alloc));
    for attr in attrs.as_slice() {
        list.push(copy_attr(attr)?)?;
    }
    Ok(Attrs { list })
}

fn copy_attrs(alloc: Global, attrs: &AttrsOrCfg) -> Result<AttrsOrCfg, AllocError> {
    match attrs {
        AttrsOrCfg::Enabled(attrs) => Ok(AttrsOrCfg::Enabled(copy_list(alloc, attrs)?)),
        AttrsOrCfg::CfgDisabled(cfg, attrs) => {
            Ok(AttrsOrCfg::CfgDisabled(*cfg, copy_list(alloc, attrs)?))
        }
    }
}

fn copy_written(
    alloc: Global,
    attrs: &Option<AttrsOrCfg>,
) -> Result<Option<AttrsOrCfg>, AllocError> {
    match attrs {
        Some(attrs) => Ok(Some(copy_attrs(alloc, attrs)?)),
        None => Ok(None),
    }
}

fn copy_kind(kind: &AssocItemKind) -> Result<AssocItemKind, AllocError> {
    match kind {
        AssocItemKind::Fn(name) => Ok(AssocItemKind::Fn(*name)),
        AssocItemKind::TypeAlias(name) => Ok(AssocItemKind::TypeAlias(*name)),
        AssocItemKind::Const(name) => Ok(AssocItemKind::Const(*name)),
        AssocItemKind::MacroCall { path, ctxt } => Ok(AssocItemKind::MacroCall {
            path: path.clone()?,
            ctxt: *ctxt,
        }),
        AssocItemKind::Other => Ok(AssocItemKind::Other),
    }
}

/// A copy of associated items.
pub fn copy_of(alloc: Global, list: &AssocList) -> Result<AssocList, AllocError> {
    let mut items = Seq::from_vec(Vec::new(alloc));
    for item in list.items.as_slice() {
        items.push(AssocItem {
            ast_id: item.ast_id,
            attrs: copy_written(alloc, &item.attrs)?,
            kind: copy_kind(&item.kind)?,
        })?;
    }
    Ok(AssocList {
        is_alias: list.is_alias,
        items,
    })
}

/// What an item is among associated ones.
fn kind_of(kind: &ModItemKind) -> Result<AssocItemKind, AllocError> {
    match kind {
        ModItemKind::Function { name, .. } => Ok(AssocItemKind::Fn(Some(*name))),
        ModItemKind::TypeAlias { name, .. } => Ok(AssocItemKind::TypeAlias(Some(*name))),
        ModItemKind::Const { name, .. } => Ok(AssocItemKind::Const(*name)),
        ModItemKind::MacroCall { path, ctxt, .. } => Ok(AssocItemKind::MacroCall {
            path: Some(path.clone()?),
            ctxt: *ctxt,
        }),
        _ => Ok(AssocItemKind::Other),
    }
}

/// An item as one among associated ones.
fn assoc_item(alloc: Global, node: &ItemNode) -> Result<AssocItem, AllocError> {
    Ok(AssocItem {
        ast_id: node.ast_id,
        attrs: copy_written(alloc, &node.attrs)?,
        kind: kind_of(&node.kind)?,
    })
}

/// The items of a tree as associated ones, without those in others.
pub fn list_of(alloc: Global, tree: &ItemTree) -> Result<AssocList, AllocError> {
    let mut items = Seq::from_vec(Vec::new(alloc));
    for id in tree.top_level_items() {
        if let Some(node) = tree.index(*id) {
            items.push(assoc_item(alloc, node)?)?;
        }
    }
    Ok(AssocList {
        is_alias: false,
        items,
    })
}
