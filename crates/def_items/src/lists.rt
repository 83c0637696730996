//! Lists of items, and where their items stand.
ghost use Rattle.std.specs.Prelude.{◌≡◌, ◌<◌, ◌++◌, ◌∷◌, [], true, Some, is_some, option_and_then, option_map, slice_get, unwrap_or, IfOk, OnOk};
ghost use Rattle.item_tree.specs.Attrs.{cfg_in};
ghost use Rattle.def_ids.specs.Ids.{is_same_module};
ghost use Rattle.def_modules.specs.Updates.{set_where};
ghost use Rattle.def_items.specs.Lists.{IsBegun, left_of, listed};
ghost use Rattle.def_items.specs.Parts.{tree_in};
ghost use Rattle.def_parts.specs.Sites.{directories_of};
ghost use Rattle.def_rules.specs.Items.{ordered};

use crate::item_order::{crates_first, is_crate_root};
use def_ids::ModuleId;
use def_parts::{ModDirs, Site};
use item_tree::{CfgExpr, ItemTree, ModItemId};
use std::alloc::{AllocError, Global};

/// A list of items that is to be walked.
#[derive(Drop)]
pub struct ItemList<'a> {
    pub site: Site,
    /// The tree of their site. None where the database lacks it.
    pub tree: Option<&'a ItemTree>,
    pub items: &'a [ModItemId],
    /// The module that the textual macros of theirs are brought into once the list is walked, if they
    /// are handed on.
    pub into: Option<ModuleId>,
}

/// A list that is being walked, from the place `next` on. The last of a stack of frames goes first.
#[derive(Drop)]
pub struct Frame<'a> {
    pub list: ItemList<'a>,
    /// The items in the order of their visits, where that differs from the list's.
    pub sorted: Option<Vec<ModItemId>>,
    pub next: usize,
}

impl<'a> Frame<'a> {
    /// Begins to walk a list: the directory of its module is stored, and at a crate's root extern
    /// crates are to go first. On `Err` nothing but safety is promised.
    pub fn open(
        alloc: Global,
        mod_dirs: &mut ModDirs,
        list: ItemList<'a>,
    ) -> Result<Frame<'a>, AllocError>
        ensures list { IfOk result (λ frame. frame.list ≡ list.entry) }
        ensures left { IfOk result (λ frame. left_of frame ≡ ordered (tree_in list.entry) list.entry.site.module_id list.entry.items.now) }
        ensures entered { OnOk result (directories_of mod_dirs.new
            ≡ set_where (is_same_module list.entry.site.module_id) (Some list.entry.site.dir) (directories_of mod_dirs.old)) }
    {
        let dir = list.site.dir.clone()?;
        mod_dirs.insert(list.site.module_id, dir)?;
        let sorted = if is_crate_root(list.site.module_id) {
            crates_first(alloc, list.tree, list.items)?
        } else {
            None
        };
        Ok(Frame {
            list,
            sorted,
            next: 0,
        })
    }

    /// The next item, if one is left.
    pub fn next_item(&self) -> Option<ModItemId>
        ensures item { result ≡ slice_get (listed self.now) self.now.next }
        ensures room { is_some result ≡ true → self.now.next < usize.MAX }
    {
        match &self.sorted {
            Some(sorted) => sorted.as_slice().get(self.next).copied(),
            None => self.list.items.get(self.next).copied(),
        }
    }
}

/// Begins to walk a list: its frame goes on a stack, as the last. On `Err` nothing but safety is
/// promised.
pub fn push_list<'a>(
    alloc: Global,
    mod_dirs: &mut ModDirs,
    frames: &mut Vec<Frame<'a>>,
    list: ItemList<'a>,
) -> Result<(), AllocError>
    ensures begun { OnOk result (IsBegun frames.old.items list.entry frames.new.items) }
    ensures entered { OnOk result (directories_of mod_dirs.new
        ≡ set_where (is_same_module list.entry.site.module_id) (Some list.entry.site.dir) (directories_of mod_dirs.old)) }
{
    let frame = Frame::open(alloc, mod_dirs, list)?;
    frames.push(frame)?;
    Ok(())
}

/// Begins to walk a list that an item of a frame opened: the frame goes back on the stack, and that
/// of the list above it. On `Err` nothing but safety is promised.
pub fn push_opened<'a>(
    alloc: Global,
    mod_dirs: &mut ModDirs,
    frames: &mut Vec<Frame<'a>>,
    frame: Frame<'a>,
    list: ItemList<'a>,
) -> Result<(), AllocError>
    ensures begun { OnOk result (IsBegun (frames.old.items ++ frame.entry ∷ []) list.entry frames.new.items) }
    ensures entered { OnOk result (directories_of mod_dirs.new
        ≡ set_where (is_same_module list.entry.site.module_id) (Some list.entry.site.dir) (directories_of mod_dirs.old)) }
{
    frames.push(frame)?;
    push_list(alloc, mod_dirs, frames, list)?;
    Ok(())
}

/// The condition that disables a whole tree, if there is a tree and one does.
pub fn disabled_by(tree: Option<&ItemTree>) -> Option<CfgExpr>
    ensures { result ≡ option_and_then (λ t. cfg_in t.now.attrs) tree.entry }
{
    match tree {
        Some(tree) => tree.top_level_attrs().disabled_by(),
        None => None,
    }
}

/// The items of a tree that stand in no other. A tree that is not there has none.
pub fn top_items<'a>(tree: Option<&'a ItemTree>) -> &'a [ModItemId]
    ensures { result.now ≡ unwrap_or (option_map (λ t. t.now.top) tree.entry) [] }
{
    match tree {
        Some(tree) => tree.top_level_items(),
        None => &[],
    }
}
