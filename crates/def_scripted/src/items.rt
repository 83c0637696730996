//! The items of a file so far.

use crate::assoc::ReadAssoc;
use crate::attributes::Written;
use crate::fault::Stop;
use crate::variants::ReadVariant;
use item_tree::{
    AttrsOrCfg, FileAstId, ItemNode, ItemTree, ModContents, ModItemId, ModItemKind, RawVisibility,
    Seq,
};
use std::alloc::{AllocError, Global};
use std::mem;

/// The variants of the enum that is this item of its file.
#[derive(Drop)]
pub struct ReadEnum {
    pub item: FileAstId,
    pub variants: Seq<ReadVariant>,
}

/// What a file or a block holds: the tree of its items, the variants of its enums, and the items of
/// its traits and impls.
#[derive(Drop)]
pub struct ReadFile {
    pub tree: ItemTree,
    pub enums: Seq<ReadEnum>,
    pub assoc: Seq<ReadAssoc>,
}

/// The items of a file so far, in the order of the text, and what stands before the next one.
#[derive(Drop)]
pub struct Items {
    alloc: Global,
    /// How many items there are, with those in traits and impls, which are no items of the tree.
    count: usize,
    pub nodes: Vec<ItemNode>,
    top: Vec<ModItemId>,
    /// The items whose braces are not closed, the outermost first.
    pub open: Vec<usize>,
    pub enums: Seq<ReadEnum>,
    pub assoc: Seq<ReadAssoc>,
    /// The attributes of the file.
    pub file: Written,
    /// The attributes of the next item, and its visibility: they wait here, since to hold them
    /// while the item is read costs the prover much more.
    pub attrs: Written,
    pub visibility: RawVisibility,
}

/// Whether the items behind an item stand in it, up to a brace.
fn holds_items(kind: &ModItemKind) -> bool {
    matches!(
        kind,
        ModItemKind::ExternBlock { .. }
            | ModItemKind::Mod {
                contents: ModContents::Inline(_),
                ..
            }
    )
}

/// Puts an item into another one. One that holds no items takes none.
fn add_child(parent: &mut ItemNode, child: ModItemId) -> Result<(), AllocError> {
    match &mut parent.kind {
        ModItemKind::Mod {
            contents: ModContents::Inline(children),
            ..
        } => children.push(child),
        ModItemKind::ExternBlock { children } => children.push(child),
        _ => Ok(()),
    }
}

impl Items {
    /// No items yet.
    pub fn new(alloc: Global) -> Self {
        Items {
            alloc,
            count: 0,
            nodes: Vec::new(alloc),
            top: Vec::new(alloc),
            open: Vec::new(alloc),
            enums: Seq::from_vec(Vec::new(alloc)),
            assoc: Seq::from_vec(Vec::new(alloc)),
            file: Written::new(alloc),
            attrs: Written::new(alloc),
            visibility: RawVisibility::PubSelf,
        }
    }

    /// The number of the next item.
    pub fn next_number(&self) -> FileAstId {
        FileAstId(self.count)
    }

    /// The number of the next item, which is given away.
    pub fn take_number(&mut self) -> FileAstId {
        let number = self.next_number();
        self.count = self.count.saturating_add(1);
        number
    }

    /// The attributes of the next item, which are taken away.
    pub fn take_attrs(&mut self) -> Option<AttrsOrCfg> {
        mem::replace(&mut self.attrs, Written::new(self.alloc)).of_item()
    }

    /// The visibility of the next item, which is taken away.
    pub fn take_visibility(&mut self) -> RawVisibility {
        mem::replace(&mut self.visibility, RawVisibility::PubSelf)
    }

    /// Puts an item into the last of those that are open, or at the top where none is.
    fn place(&mut self, id: ModItemId) -> Result<(), AllocError> {
        match self.open.last() {
            Some(parent) => {
                if let Some(node) = self.nodes.get_mut(*parent) {
                    add_child(node, id)?;
                }
            }
            None => self.top.push(id)?,
        }
        Ok(())
    }

    /// Adds an item with its attributes, with the next number from 0.
    pub fn push(&mut self, kind: ModItemKind) -> Result<(), AllocError> {
        let number = self.nodes.len();
        let is_open = holds_items(&kind);
        let ast_id = self.take_number();
        let attrs = self.take_attrs();
        self.nodes.push(ItemNode {
            ast_id,
            attrs,
            kind,
        })?;
        self.place(ModItemId(number))?;
        if is_open {
            self.open.push(number)?;
        }
        Ok(())
    }

    /// What the file holds, if each item stands in one place.
    pub fn into_file(self) -> Result<ReadFile, Stop> {
        let Items {
            nodes,
            top,
            enums,
            assoc,
            file,
            ..
        } = self;
        match ItemTree::new(nodes, top, file.into_attrs()) {
            Ok(tree) => Ok(ReadFile { tree, enums, assoc }),
            Err(_) => Err(Stop::Here),
        }
    }
}
