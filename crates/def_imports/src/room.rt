//! How much room the names and the imports of a tree are likely to take.
ghost use Rattle.std.specs.Prelude.{◌≡◌, ◌≤◌, ◌*◌, length};
ghost use Rattle.def_imports.specs.Room.{imports_of, imports_written};

use item_tree::{ImportKind, ItemNode, ItemTree, ModItemKind, UseImport};

/// How much to make room for, so that what is there is not copied while it grows: names, imports,
/// modules, globs among the imports, and items of the root.
#[derive(Clone, Copy)]
pub struct Room {
    pub names: usize,
    pub imports: usize,
    pub modules: usize,
    pub globs: usize,
    pub root_items: usize,
}

impl Room {
    /// Room for a tree: one name for each item, and five for two items where it has globs, each of which
    /// brings the names of a whole module. An entry is a small multiple of an item in size, and so is the
    /// room of what is written.
    pub fn of_tree(tree: &ItemTree) -> Room
        ensures names { result.names ≤ length tree.now.items * 3 }
        ensures imports { result.imports ≤ imports_written tree.now.items }
        ensures modules { result.modules ≤ length tree.now.items }
        ensures globs { result.globs ≤ imports_written tree.now.items }
        ensures root_items { result.root_items ≤ length tree.now.top }
    {
        let nodes = tree.items.as_slice();
        let globs = globs_in(nodes);
        Room {
            names: if globs == 0 {
                nodes.len()
            } else {
                nodes.len().saturating_mul(5) / 2
            },
            imports: imports_in(nodes),
            modules: modules_in(nodes),
            globs,
            root_items: tree.top.len(),
        }
    }
}

/// The imports of an item.
fn imports_of_item(node: &ItemNode) -> &[UseImport]
    ensures { result.now ≡ imports_of node.now.kind }
{
    match &node.kind {
        ModItemKind::Use {
            visibility: _,
            imports,
        } => imports.as_slice(),
        _ => &[],
    }
}

/// How many imports items have, or fewer where they are too many to be counted.
fn imports_in(nodes: &[ItemNode]) -> usize
    ensures { result ≤ imports_written nodes.now }
{
    let mut found = 0usize;
    for node in nodes {
        found = found.saturating_add(imports_of_item(node).len());
    }
    found
}

/// How many of these imports are globs.
fn globs_among(imports: &[UseImport]) -> usize
    ensures { result ≤ length imports.now }
{
    let mut found = 0usize;
    for import in imports {
        if import.kind == ImportKind::Glob {
            found = found.saturating_add(1);
        }
    }
    found
}

/// How many globs items have, or fewer where they are too many to be counted.
fn globs_in(nodes: &[ItemNode]) -> usize
    ensures { result ≤ imports_written nodes.now }
{
    let mut found = 0usize;
    for node in nodes {
        found = found.saturating_add(globs_among(imports_of_item(node)));
    }
    found
}

/// How many items are modules.
fn modules_in(nodes: &[ItemNode]) -> usize
    ensures { result ≤ length nodes.now }
{
    let mut found = 0usize;
    for node in nodes {
        if let ModItemKind::Mod { .. } = &node.kind {
            found = found.saturating_add(1);
        }
    }
    found
}
