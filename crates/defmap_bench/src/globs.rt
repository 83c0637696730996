//! How long a late name takes to travel along the edges of globs.

use crate::report::{Entry as Shown, print_report};
use def_bindings::{BindingTable, Entry, ModuleTree, Namespace, VisOrder, Visibility};
use def_ids::{Def, GlobId, MapId, ModuleId, StructId, UseId};
use def_map::Table;
use def_parts::Globs;
use item_tree::{Crate, Name, Seq};
use std::alloc::{AllocError, Global};
use std::io;
use std::rt::Clock;
use std::time::{Duration, Instant};

/// Of so many rounds the fastest counts.
const ROUNDS: usize = 200;

/// Modules and the edges between them.
enum Graph {
    /// So many edges, each from a module to the next one.
    Chain(usize),
    /// So many modules, each with an edge to each other one.
    Complete(usize),
}

static GRAPHS: [Graph; 4] = [
    Graph::Chain(100),
    Graph::Chain(1_000),
    Graph::Complete(10),
    Graph::Complete(20),
];

static REPORT: [Shown; 6] = [
    Shown::Time("a late name along a chain of 100 edges", 0),
    Shown::Time("a late name along a chain of 1,000 edges", 1),
    Shown::Ratio("1,000 edges to 100", 1, 0),
    Shown::Time("a late name in a complete graph of 10 modules, 90 edges", 2),
    Shown::Time(
        "a late name in a complete graph of 20 modules, 380 edges",
        3,
    ),
    Shown::Ratio("380 edges to 90", 3, 2),
];

const MAP: MapId = MapId {
    krate: Crate(0),
    block: None,
};

/// A public struct. It is late where the edges are there before it.
const LATE: Entry<Visibility> = Entry {
    name: Some(Name(0)),
    ns: Namespace::Types,
    def: Def::Struct(StructId(0)),
    vis: Visibility::Public,
    origin: None,
};

fn module(index: usize) -> ModuleId {
    ModuleId { map: MAP, index }
}

/// Records a public glob.
fn add_edge<T: BindingTable<Vis = Visibility>, O: VisOrder<Vis = Visibility>>(
    globs: &mut Globs<T>,
    order: &O,
    source: usize,
    importer: usize,
) -> Result<(), AllocError> {
    let glob = GlobId {
        use_id: UseId(source),
        idx: 0,
    };
    let (source, importer) = (module(source), module(importer));
    globs.add_edge(order, source, importer, Visibility::Public, glob)
}

/// Records an edge from each of so many modules to the next one.
fn add_chain<T: BindingTable<Vis = Visibility>, O: VisOrder<Vis = Visibility>>(
    globs: &mut Globs<T>,
    order: &O,
    edges: usize,
) -> Result<(), AllocError> {
    for source in 0..edges {
        add_edge(globs, order, source, source.saturating_add(1))?;
    }
    Ok(())
}

/// Records an edge from each of so many modules to each other one.
fn add_complete<T: BindingTable<Vis = Visibility>, O: VisOrder<Vis = Visibility>>(
    globs: &mut Globs<T>,
    order: &O,
    modules: usize,
) -> Result<(), AllocError> {
    for source in 0..modules {
        for importer in 0..modules {
            if importer != source {
                add_edge(globs, order, source, importer)?;
            }
        }
    }
    Ok(())
}

/// Records the edges of a graph, and answers the module after all others.
fn add_edges<T: BindingTable<Vis = Visibility>, O: VisOrder<Vis = Visibility>>(
    globs: &mut Globs<T>,
    order: &O,
    graph: &Graph,
) -> Result<ModuleId, AllocError> {
    match graph {
        Graph::Chain(edges) => {
            add_chain(globs, order, *edges)?;
            Ok(module(*edges))
        }
        Graph::Complete(modules) => {
            add_complete(globs, order, *modules)?;
            Ok(module(modules.saturating_sub(1)))
        }
    }
}

/// How long a late name takes in a table without names and edges, once it has a graph's edges.
fn time_name<C: Clock, T: BindingTable<Vis = Visibility>, O: VisOrder<Vis = Visibility>>(
    clock: &C,
    order: &O,
    globs: &mut Globs<T>,
    graph: &Graph,
) -> io::Result<Duration> {
    let last = add_edges(globs, order, graph)?;
    let start = Instant::now(clock)?;
    globs.update(order, module(0), &[LATE])?;
    let time = start.elapsed(clock)?;
    match globs.table().binding(last, Name(0), Namespace::Types) {
        Some(_) => Ok(time),
        None => Err(io::Error::other("the late name did not arrive")),
    }
}

/// One round over a table without names and edges.
fn time_round<C: Clock, T: BindingTable<Vis = Visibility> + Drop, O: VisOrder<Vis = Visibility>>(
    alloc: Global,
    clock: &C,
    order: &O,
    table: T,
    graph: &Graph,
) -> io::Result<Duration> {
    let mut globs = Globs::new(alloc, table);
    time_name(clock, order, &mut globs, graph)
}

/// How long a late name takes in each graph, in the fastest round.
fn times_of<C: Clock>(alloc: Global, clock: &C, order: &ModuleTree) -> io::Result<[Duration; 4]> {
    let mut least = [Duration::MAX; 4];
    for place in 0..4 {
        for _ in 0..ROUNDS {
            let table = Table::of_map(alloc, MAP)?;
            let time = time_round(alloc, clock, order, table, &GRAPHS[place])?;
            least[place] = least[place].min(time);
        }
    }
    Ok(least)
}

/// Times chains of edges and complete graphs, each in two sizes. The order of visibilities is that
/// of a map of one module, which is enough for public names.
pub fn run<C: Clock, W: io::Write>(alloc: Global, clock: &C, out: &mut W) -> io::Result<()> {
    let Some(order) = ModuleTree::new(alloc, MAP, Seq::from_vec(Vec::new(alloc)))? else {
        return Err(io::Error::other("the modules are no tree"));
    };
    let times = times_of(alloc, clock, &order)?;
    print_report(out, REPORT.as_slice(), times.as_slice())
}
