//! The order in which the items of a list are visited.
ghost use Rattle.std.specs.Prelude.{◌≡◌, ◌++◌, ◌∷◌, [], cond, filter, not, option_map, IfOk, OnOk};
ghost use Rattle.std.specs.List.{list_any};
ghost use Rattle.def_rules.specs.Items as items;
ghost use Rattle.def_items.specs.Lists.{listed_in};

use def_ids::ModuleId;
use item_tree::{ItemNode, ItemTree, ModItemId, ModItemKind};
use std::alloc::{AllocError, Global};

/// Whether a module is the root of a crate, and not of a block.
pub fn is_crate_root(module_id: ModuleId) -> bool
    ensures { result ≡ items.is_crate_root module_id }
{
    module_id.index == 0 && !module_id.map.block.is_some()
}

/// The items of a list, extern crates before all others, each group in order. `None` where that is the
/// order of the list, since it has no extern crates.
pub(crate) fn crates_first(
    alloc: Global,
    tree: Option<&ItemTree>,
    list: &[ModItemId],
) -> Result<Option<Vec<ModItemId>>, AllocError>
    ensures { IfOk result (λ sorted. listed_in sorted list.now ≡ items.crates_first (option_map (λ t. t.now) tree.entry) list.now) }
{
    if !has_crates(tree, list) {
        return Ok(None);
    }
    let mut sorted = Vec::new(alloc);
    push_crates(&mut sorted, tree, list)?;
    push_others(&mut sorted, tree, list)?;
    Ok(Some(sorted))
}

/// Whether a list has extern crates.
fn has_crates(tree: Option<&ItemTree>, list: &[ModItemId]) -> bool
    ensures { result ≡ list_any (items.names_crate (option_map (λ t. t.now) tree.entry)) list.now }
{
    'items: for id in list {
        if names_crate(tree, *id) {
            return true;
        }
    }
    false
}

/// Appends the extern crates of a list. On `Err` some may be there.
fn push_crates(
    sorted: &mut Vec<ModItemId>,
    tree: Option<&ItemTree>,
    list: &[ModItemId],
) -> Result<(), AllocError>
    ensures { OnOk result (sorted.new.items ≡ sorted.old.items ++ filter (items.names_crate (option_map (λ t. t.now) tree.entry)) list.now) }
{
    'crates: for id in list {
        push_if(sorted, names_crate(tree, *id), *id)?;
    }
    Ok(())
}

/// Appends the items of a list that are no extern crates. On `Err` some may be there.
fn push_others(
    sorted: &mut Vec<ModItemId>,
    tree: Option<&ItemTree>,
    list: &[ModItemId],
) -> Result<(), AllocError>
    ensures { OnOk result (sorted.new.items ≡ sorted.old.items ++ filter (λ id. not (items.names_crate (option_map (λ t. t.now) tree.entry) id)) list.now) }
{
    'others: for id in list {
        push_if(sorted, !names_crate(tree, *id), *id)?;
    }
    Ok(())
}

/// Appends an item, if it belongs there.
fn push_if(sorted: &mut Vec<ModItemId>, belongs: bool, id: ModItemId) -> Result<(), AllocError>
    ensures { OnOk result (sorted.new.items ≡ sorted.old.items ++ cond belongs (id ∷ []) []) }
{
    if belongs {
        sorted.push(id)?;
    }
    Ok(())
}

/// Whether the item of a number is an extern crate.
fn names_crate(tree: Option<&ItemTree>, id: ModItemId) -> bool
    ensures { result ≡ items.names_crate (option_map (λ t. t.now) tree.entry) id }
{
    match tree {
        Some(tree) => is_crate_node(tree.index(id)),
        None => false,
    }
}

/// Whether an item is there, and is an extern crate.
fn is_crate_node(node: Option<&ItemNode>) -> bool
    ensures { result ≡ items.is_crate_node (option_map (λ n. n.now) node.entry) }
{
    match node {
        Some(node) => is_extern_crate(&node.kind),
        None => false,
    }
}

/// Whether an item of this kind is an extern crate.
fn is_extern_crate(kind: &ModItemKind) -> bool
    ensures { result ≡ items.is_extern_crate kind.now }
{
    match kind {
        ModItemKind::ExternCrate { .. } => true,
        _ => false,
    }
}
