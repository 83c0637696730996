//! The faults of item trees.
#![tactic(auto)]

use item_tree::{
    Attrs, AttrsOrCfg, FileAstId, ItemNode, ItemTree, ModContents, ModItemId, ModItemKind, Name,
    RawVisibility, Seq, TreeFault,
};
use std::alloc::{AllocError, Global};
use std::test::Fail;

/// The items of these numbers.
fn ids(alloc: Global, numbers: &[usize]) -> Result<Vec<ModItemId>, AllocError> {
    let mut ids = Vec::new(alloc);
    for number in numbers {
        ids.push(ModItemId(*number))?;
    }
    Ok(ids)
}

/// A module with these children.
fn module(alloc: Global, number: usize, children: &[usize]) -> Result<ItemNode, AllocError> {
    Ok(ItemNode {
        ast_id: FileAstId(number),
        attrs: None,
        kind: ModItemKind::Mod {
            name: Name(number),
            visibility: RawVisibility::PubSelf,
            contents: ModContents::Inline(Seq::from_vec(ids(alloc, children)?)),
        },
    })
}

/// The attributes of a file without any.
fn no_attrs(alloc: Global) -> AttrsOrCfg {
    AttrsOrCfg::Enabled(Attrs {
        list: Seq::from_vec(Vec::new(alloc)),
    })
}

/// Modules with these children.
fn modules(alloc: Global, children: &[&[usize]]) -> Result<Vec<ItemNode>, AllocError> {
    let mut items = Vec::new(alloc);
    for (number, list) in children.iter().enumerate() {
        items.push(module(alloc, number, list)?)?;
    }
    Ok(items)
}

/// The children of each module, the modules at the top, and the first fault of their tree.
struct Row {
    children: &'static [&'static [usize]],
    top: &'static [usize],
    fault: Option<TreeFault>,
}

static ROWS: [Row; 5] = [
    Row {
        children: &[&[5]],
        top: &[0],
        fault: Some(TreeFault::ChildOutOfRange(0)),
    },
    Row {
        children: &[&[0]],
        top: &[0],
        fault: Some(TreeFault::ChildNotAfterParent(0)),
    },
    Row {
        children: &[&[2], &[2], &[]],
        top: &[0, 1],
        fault: Some(TreeFault::TwoParents(2)),
    },
    Row {
        children: &[&[]],
        top: &[1],
        fault: Some(TreeFault::ChildOutOfRange(1)),
    },
    Row {
        children: &[&[1, 2], &[], &[]],
        top: &[0],
        fault: None,
    },
];

/// Whether the tree of a row has its fault.
fn holds(alloc: Global, row: &Row) -> Result<bool, AllocError> {
    let items = modules(alloc, row.children)?;
    let top = ids(alloc, row.top)?;
    Ok(ItemTree::new(items, top, no_attrs(alloc)).err() == row.fault)
}

#[test]
fn the_first_fault_is_named(rt: HostRuntime) -> Result<(), Fail> {
    for row in &ROWS {
        assert!(rt; holds(rt.alloc(), row)?);
    }
    Ok(())
}
