//! From the list of a text's items to their tree, and what stands beside it.

use crate::attributes::no_attributes;
use crate::context::{Context, Lowering, NO_PLACE};
use crate::fault::{LowerError, LowerFault};
use crate::inner_macros::InnerMacros;
use crate::tree::TreeSoFar;
use def_interner::Interner;
use def_oracle::{AssocItem, EnumVariant};
use item_tree::{AttrsOrCfg, FileAstId, ItemNode, ItemTree, Seq};
use rust_items::{Item, ItemKind, Owner};
use std::alloc::{AllocError, Global};

/// What the items of a text are to the collector. An item's `FileAstId` is its number in the list.
#[derive(Drop)]
pub struct Lowered {
    pub tree: ItemTree,
    /// The variants of each enum whose `cfg` is met.
    pub variants: Vec<(FileAstId, Vec<EnumVariant>)>,
    /// What stands in each trait and each impl, whose `cfg` is met.
    pub assoc: Vec<(FileAstId, Vec<AssocItem>)>,
    /// The macros among them whose calls of others mean those of their own crate.
    pub inner_macros: Vec<InnerMacros>,
    pub faults: Vec<LowerError>,
}

/// What has been made of the items of a text.
#[derive(Drop)]
struct Made {
    tree: TreeSoFar,
    variants: Vec<(FileAstId, Vec<EnumVariant>)>,
    assoc: Vec<(FileAstId, Vec<AssocItem>)>,
    inner_macros: Vec<InnerMacros>,
}

/// An item, its place in the list, and its attributes.
#[derive(Drop)]
struct Attributed {
    item: Item,
    number: usize,
    attrs: Option<AttrsOrCfg>,
}

/// Whether the `cfg` of an item is not met.
fn is_disabled(attrs: &Option<AttrsOrCfg>) -> bool {
    matches!(attrs, Some(AttrsOrCfg::CfgDisabled(..)))
}

impl<'a> Lowering<'a> {
    /// Adds an item to those of the last trait or impl.
    fn add_associated(
        &mut self,
        session: &mut Interner,
        made: &mut Made,
        one: Attributed,
    ) -> Result<(), AllocError> {
        let Attributed {
            item,
            number,
            attrs,
        } = one;
        let kind = self.associated(session, &item)?;
        if let Some((_, items)) = made.assoc.last_mut() {
            items.push(AssocItem {
                ast_id: FileAstId(number),
                attrs,
                kind,
            })?;
        }
        Ok(())
    }

    /// Adds what stands in an item beside the tree: no items yet of a trait or an impl, the
    /// variants of an enum, the part of the text of a macro.
    fn add_beside(
        &mut self,
        session: &mut Interner,
        made: &mut Made,
        one: &Attributed,
        next_variant: &mut usize,
    ) -> Result<(), AllocError> {
        let ast_id = FileAstId(one.number);
        match one.item.kind {
            ItemKind::Enum { variants } => {
                let variants = self.variants(session, variants, next_variant)?;
                made.variants.push((ast_id, variants))?;
            }
            ItemKind::Trait | ItemKind::Impl { .. } => {
                made.assoc.push((ast_id, Vec::new(self.alloc)))?;
            }
            ItemKind::MacroRules { .. } => {
                if let Some(inner) = self.inner_macros(&one.item) {
                    made.inner_macros.push(inner)?;
                }
            }
            _ => {}
        }
        Ok(())
    }

    /// Adds an item to the tree.
    fn add_node(
        &mut self,
        session: &mut Interner,
        made: &mut Made,
        one: Attributed,
    ) -> Result<(), AllocError> {
        let Attributed {
            item,
            number,
            attrs,
        } = one;
        if let Some(kind) = self.kind(session, &item)? {
            let node = ItemNode {
                ast_id: FileAstId(number),
                attrs,
                kind,
            };
            made.tree.push(node, item.after as usize)?;
        }
        Ok(())
    }

    /// Adds an item whose `cfg` is met, or one that is not.
    fn add_item(
        &mut self,
        session: &mut Interner,
        made: &mut Made,
        one: Attributed,
        next_variant: &mut usize,
    ) -> Result<(), AllocError> {
        made.tree.close_before(one.number);
        if !is_disabled(&one.attrs) {
            self.add_beside(session, made, &one, next_variant)?;
        }
        match one.item.owner {
            Owner::Associated => self.add_associated(session, made, one),
            _ => self.add_node(session, made, one),
        }
    }

    /// Adds the items of the list. Those within an item whose `cfg` is not met are passed over.
    fn add_items(
        &mut self,
        session: &mut Interner,
        made: &mut Made,
        next_variant: &mut usize,
    ) -> Result<(), AllocError> {
        let list = self.context.list;
        let mut passed_to = 0;
        for (number, item) in list.items.iter().enumerate() {
            if number < passed_to {
                continue;
            }
            let attrs = self.item_attributes(session, item)?;
            if is_disabled(&attrs) {
                passed_to = item.after as usize;
            }
            let one = Attributed {
                item: *item,
                number,
                attrs,
            };
            self.add_item(session, made, one, next_variant)?;
        }
        Ok(())
    }
}

/// The tree of no items.
#[tactic(auto, using(crate::proofs::TreeLemmas::sound_empty))]
fn empty_tree(alloc: Global) -> ItemTree {
    ItemTree {
        items: Seq::from_vec(Vec::new(alloc)),
        top: Seq::from_vec(Vec::new(alloc)),
        attrs: AttrsOrCfg::Enabled(no_attributes(alloc)),
    }
}

/// The tree of items. Numbers in the order of the text are one, so that no fault is met.
fn whole_tree(
    alloc: Global,
    items: TreeSoFar,
    attrs: AttrsOrCfg,
    faults: &mut Vec<LowerError>,
) -> Result<ItemTree, AllocError> {
    let TreeSoFar { nodes, top, .. } = items;
    match ItemTree::new(nodes, top, attrs) {
        Ok(tree) => Ok(tree),
        Err(_) => {
            faults.push(LowerError {
                fault: LowerFault::NoTree,
                place: NO_PLACE,
            })?;
            Ok(empty_tree(alloc))
        }
    }
}

/// What the items of a text are to the collector. Their names and those in their attributes are of
/// the session. The variants of enums have the numbers from `next_variant` on, which is moved behind
/// them. What is wrong is told, up to a number of faults, and what it is in is left out.
pub fn lower(
    alloc: Global,
    context: &Context<'_>,
    session: &mut Interner,
    next_variant: &mut usize,
) -> Result<Lowered, AllocError> {
    let mut lowering = Lowering::new(alloc, *context);
    let mut made = Made {
        tree: TreeSoFar::new(alloc),
        variants: Vec::new(alloc),
        assoc: Vec::new(alloc),
        inner_macros: Vec::new(alloc),
    };
    let attrs = lowering.attributes(session, context.list.inner)?;
    lowering.add_items(session, &mut made, next_variant)?;
    let Lowering { mut faults, .. } = lowering;
    let Made {
        tree,
        variants,
        assoc,
        inner_macros,
    } = made;
    let tree = whole_tree(alloc, tree, attrs, &mut faults)?;
    Ok(Lowered {
        tree,
        variants,
        assoc,
        inner_macros,
        faults,
    })
}
