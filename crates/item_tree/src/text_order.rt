//! A test for items that are numbered in the order of the text.
ghost use Rattle.std.specs.Prelude.{◌<◌, ◌≤◌, ◌+◌, length, IsTrue, ◌↔◌, ℕ};
ghost use Rattle.item_tree.specs.TextOrder.{IsRising, AreRising, IsWithin, IsCut, AreCut, IsInTextOrder};

use crate::items::ItemNode;
use tree_ids::ModItemId;

/// Whether each parent comes before its children, siblings rise, and each subtree ends before the
/// next sibling. Such items are a tree.
///
/// Takes no memory. An answer of `true` takes linear time: two walks over the lists, and for each
/// child but the last of its list, and each item between subtrees that stands in no list, a walk
/// down the last children below it. No two of these walks share an item.
pub fn is_in_text_order(items: &[ItemNode], top: &[ModItemId]) -> bool
    ensures { IsTrue result ↔ IsInTextOrder items.now top.now }
{
    if !are_rising(items) {
        return false;
    }
    if !is_rising(top, 0, items.len()) {
        return false;
    }
    if !are_cut(items) {
        return false;
    }
    is_cut(items, top, 0)
}

/// Whether the children of each item rise behind it.
fn are_rising(items: &[ItemNode]) -> bool
    ensures { IsTrue result ↔ AreRising items.now }
{
    for i in 0..items.len() {
        if !is_rising(items[i].children(), i + 1, items.len()) {
            return false;
        }
    }
    true
}

/// Whether the numbers in a list rise from `low` on and stay below `bound`.
fn is_rising(list: &[ModItemId], low: usize, bound: usize) -> bool
    ensures { IsTrue result ↔ IsRising bound low list.now }
{
    let mut next = low;
    for c in list {
        if c.0 < next || c.0 >= bound {
            return false;
        }
        next = c.0 + 1;
    }
    true
}

/// Whether each list of children goes from subtree to subtree.
fn are_cut(items: &[ItemNode]) -> bool
    requires { AreRising items.now }
    ensures { IsTrue result ↔ AreCut items.now 0 }
{
    let mut i = items.len();
    'items: while i > 0 {
        i -= 1;
        if !is_cut(items, items[i].children(), i + 1) {
            return false;
        }
    }
    true
}

/// Whether each number in a list is that of a subtree, where the subtrees from `low` on are passed
/// one after another.
fn is_cut(items: &[ItemNode], list: &[ModItemId], low: usize) -> bool
    requires rising { AreRising items.now }
    requires cut { AreCut items.now low }
    requires list_rising { IsRising (length items.now) low list.now }
    ensures { IsTrue result ↔ IsCut items.now low list.now }
{
    let mut at = low;
    for c in list {
        at = next_subtree(items, at, c.0);
        if at != c.0 {
            return false;
        }
    }
    true
}

/// The first subtree at `to` or behind it, where the subtrees from `from` on are passed.
fn next_subtree(items: &[ItemNode], from: usize, to: usize) -> usize
    requires there { to < length items.now }
    requires rising { AreRising items.now }
    requires cut { AreCut items.now from }
    ensures after { from ≤ result }
    ensures behind { to ≤ result }
    ensures within { IsWithin items.now from result result }
    ensures nearest { from ≤ to → IsWithin items.now from to to → result ≤ to }
{
    let mut at = from;
    'subtrees: while at < to {
        at = subtree_end(items, at);
    }
    at
}

/// The number behind the subtree of an item: that of its last child ends with it.
fn subtree_end(items: &[ItemNode], i: usize) -> usize
    requires there { i < length items.now }
    requires rising { AreRising items.now }
    requires cut { AreCut items.now i }
    ensures after { i < result }
    ensures within { IsWithin items.now i result result }
    ensures nearest { (to : ℕ) → i < to → IsWithin items.now i to to → result ≤ to }
{
    let mut last = i;
    'last: while let Some(child) = items[last].children().last() {
        last = child.0;
    }
    last + 1
}
