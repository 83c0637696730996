//! How long item trees take to be made, of items that are numbered in the order of the text.

use crate::report::{Entry, print_report};
use item_tree::{
    Attrs, AttrsOrCfg, CtorVisibility, FileAstId, ItemNode, ItemTree, ModContents, ModItemId,
    ModItemKind, Name, RawVisibility, Seq,
};
use std::alloc::{AllocError, Global};
use std::io;
use std::rt::Clock;
use std::time::{Duration, Instant};

/// Of so many rounds the fastest counts.
const ROUNDS: usize = 10;

/// How many trees are made, and of how many items each. Each size has as many items in all, so that
/// no tree lies in a near cache when it is made.
static SIZES: [(u32, usize); 3] = [(100, 10_000), (10, 100_000), (1, 1_000_000)];

/// What stands in each of ten items, by how far that is behind the first of them. The first and the
/// last one stand in no other, those that hold something are modules, and the others structs.
static CHILDREN: [&[usize]; 10] = [
    &[1, 2, 8],
    &[],
    &[3, 4, 7],
    &[],
    &[5, 6],
    &[],
    &[],
    &[],
    &[],
    &[],
];

static REPORT: [Entry; 5] = [
    Entry::Time("ItemTree::new of 10,000 items", 0),
    Entry::Time("ItemTree::new of 100,000 items", 1),
    Entry::Time("ItemTree::new of 1,000,000 items", 2),
    Entry::Ratio("100,000 items to 10,000", 1, 0),
    Entry::Ratio("1,000,000 items to 100,000", 2, 1),
];

/// What a tree is made of: items by number, and the numbers of those that stand in no other.
type Nodes = (Vec<ItemNode>, Vec<ModItemId>);

/// What stands in an item.
fn children_of(alloc: Global, number: usize) -> Result<Vec<ModItemId>, AllocError> {
    let mut children = Vec::new(alloc);
    let first = number - number % 10;
    for behind in CHILDREN[number % 10] {
        children.push(ModItemId(first.saturating_add(*behind)))?;
    }
    Ok(children)
}

/// What an item is.
fn kind_of(name: Name, children: Vec<ModItemId>) -> ModItemKind {
    if children.is_empty() {
        ModItemKind::Struct {
            name,
            visibility: RawVisibility::Public,
            ctor: CtorVisibility::NoValueNsCtor,
        }
    } else {
        ModItemKind::Mod {
            name,
            visibility: RawVisibility::Public,
            contents: ModContents::Inline(Seq::from_vec(children)),
        }
    }
}

/// Adds an item. Its name is its number.
fn add_node(alloc: Global, nodes: &mut Nodes, number: usize) -> Result<(), AllocError> {
    let children = children_of(alloc, number)?;
    nodes.0.push(ItemNode {
        ast_id: FileAstId(number),
        attrs: None,
        kind: kind_of(Name(number), children),
    })?;
    if matches!(number % 10, 0 | 9) {
        nodes.1.push(ModItemId(number))?;
    }
    Ok(())
}

/// What a tree of so many items is made of.
fn nodes_of(alloc: Global, items: usize) -> Result<Nodes, AllocError> {
    let mut nodes = (Vec::new(alloc), Vec::new(alloc));
    for number in 0..items {
        add_node(alloc, &mut nodes, number)?;
    }
    Ok(nodes)
}

/// How long a tree takes to be made.
fn time_tree<C: Clock>(alloc: Global, clock: &C, nodes: Nodes) -> io::Result<Duration> {
    let attrs = AttrsOrCfg::Enabled(Attrs {
        list: Seq::from_vec(Vec::new(alloc)),
    });
    let start = Instant::now(clock)?;
    match ItemTree::new(nodes.0, nodes.1, attrs) {
        Ok(_tree) => start.elapsed(clock),
        Err(_) => Err(io::Error::other("the items are no tree")),
    }
}

/// How long so many trees take to be made, all together.
fn time_trees<C: Clock>(
    alloc: Global,
    clock: &C,
    trees: u32,
    items: usize,
) -> io::Result<Duration> {
    let mut all = Vec::new(alloc);
    for _ in 0..trees {
        all.push(nodes_of(alloc, items)?)?;
    }
    let mut time = Duration::ZERO;
    for nodes in all {
        time = time.saturating_add(time_tree(alloc, clock, nodes)?);
    }
    Ok(time)
}

/// How long one of so many trees takes to be made in the fastest round.
fn time_of<C: Clock>(alloc: Global, clock: &C, trees: u32, items: usize) -> io::Result<Duration> {
    let mut least = Duration::MAX;
    for _ in 0..ROUNDS {
        least = least.min(time_trees(alloc, clock, trees, items)?);
    }
    Ok(least.checked_div(trees).unwrap_or(least))
}

/// Times trees of three sizes.
pub fn run<C: Clock, W: io::Write>(alloc: Global, clock: &C, out: &mut W) -> io::Result<()> {
    let mut times = [Duration::ZERO; 3];
    for place in 0..3 {
        let (trees, items) = SIZES[place];
        times[place] = time_of(alloc, clock, trees, items)?;
    }
    print_report(out, REPORT.as_slice(), times.as_slice())
}
