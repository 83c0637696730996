//! The tree of items so far.

use item_tree::{ItemNode, ModContents, ModItemId, ModItemKind};
use std::alloc::{AllocError, Global};

/// An item whose own items come.
#[derive(Clone, Copy)]
struct OpenItem {
    node: usize,
    /// The place in the list behind the items within it.
    after: usize,
}

/// Items, numbered in the order of the text.
#[derive(Drop)]
pub(crate) struct TreeSoFar {
    pub(crate) nodes: Vec<ItemNode>,
    pub(crate) top: Vec<ModItemId>,
    /// The items whose own items come, the outermost first.
    open: Vec<OpenItem>,
}

/// Puts an item into another one. One that holds no items takes none.
fn add_child(parent: &mut ItemNode, child: ModItemId) -> Result<(), AllocError> {
    match &mut parent.kind {
        ModItemKind::Mod {
            contents: ModContents::Inline(children),
            ..
        } => children.push(child),
        ModItemKind::ExternBlock { children } => children.push(child),
        _ => Ok(()),
    }
}

impl TreeSoFar {
    /// No items yet.
    pub(crate) fn new(alloc: Global) -> TreeSoFar {
        TreeSoFar {
            nodes: Vec::new(alloc),
            top: Vec::new(alloc),
            open: Vec::new(alloc),
        }
    }

    /// Closes the items whose own items stand before a place in the list.
    pub(crate) fn close_before(&mut self, place: usize) {
        for _ in 0..self.open.len() {
            match self.open.last() {
                Some(open) if open.after <= place => {}
                _ => break,
            }
            self.open.pop();
        }
    }

    /// Puts an item into the innermost that is open, or at the top where none is.
    fn place(&mut self, id: ModItemId) -> Result<(), AllocError> {
        match self.open.last() {
            Some(open) => {
                if let Some(parent) = self.nodes.get_mut(open.node) {
                    add_child(parent, id)?;
                }
            }
            None => self.top.push(id)?,
        }
        Ok(())
    }

    /// Adds an item, whose own items stand in the list up to a place.
    pub(crate) fn push(&mut self, node: ItemNode, after: usize) -> Result<(), AllocError> {
        let number = self.nodes.len();
        self.nodes.push(node)?;
        self.place(ModItemId(number))?;
        self.open.push(OpenItem {
            node: number,
            after,
        })?;
        Ok(())
    }
}
