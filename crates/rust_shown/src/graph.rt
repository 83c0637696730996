//! Modules and globs as a graph for Graphviz.

use crate::modules::modules;
use def_ids::ModuleId;
use def_rules::Edge;
use item_tree::Crate;
use rust_codebase::Codebase;
use rust_names::{Names, Spot};
use std::io;

/// Writes an arrow from a module to one within it.
fn write_within<C: Codebase, O: io::Write>(
    names: &Names<'_, C>,
    krate: Crate,
    index: usize,
    path: &str,
    out: &mut O,
) -> io::Result<()> {
    let Some(map) = names.map(krate) else {
        return Ok(());
    };
    if let Some(parent) = map.parent(index) {
        let above = names.module_path(ModuleId {
            map: map.id(),
            index: parent,
        })?;
        let above = above.as_str();
        writeln!(out, "    \"{above}\" -> \"{path}\";")?;
    }
    Ok(())
}

/// Where the glob of an edge is written.
fn spot_of_glob<C: Codebase>(names: &Names<'_, C>, edge: &Edge) -> Option<Spot> {
    let position = names.codebase().use_position(edge.glob.use_id)?;
    names.places.spot_of_import(position, edge.glob.idx)
}

/// Writes what stands beside the arrow of a glob: its line, with what a graph's text may not hold
/// escaped.
fn write_label<C: Codebase, O: io::Write>(
    names: &Names<'_, C>,
    spot: Spot,
    out: &mut O,
) -> io::Result<()> {
    let line = names.places.line_column(spot)?.line;
    let file = names.places.path(spot.source);
    let file = format!(in names.alloc; "{file:?}")?;
    let file = file.as_str().trim_matches('"');
    write!(out, ", label=\"* {file}:{line}\"")
}

/// Writes an arrow from the module of a glob to the one that it takes names of.
fn write_edge<C: Codebase, O: io::Write>(
    names: &Names<'_, C>,
    edge: &Edge,
    out: &mut O,
) -> io::Result<()> {
    let importer = names.module_path(edge.importer)?;
    let source = names.module_path(edge.source)?;
    let (importer, source) = (importer.as_str(), source.as_str());
    write!(out, "    \"{importer}\" -> \"{source}\" [style=dashed")?;
    if let Some(spot) = spot_of_glob(names, edge) {
        write_label(names, spot, out)?;
    }
    writeln!(out, "];")
}

/// Writes the modules of a crate, each with an arrow from the one around it.
fn write_modules<C: Codebase, O: io::Write>(
    names: &Names<'_, C>,
    krate: Crate,
    out: &mut O,
) -> io::Result<()> {
    for module in modules(names, krate)?.iter() {
        let path = module.path.as_str();
        writeln!(out, "    \"{path}\";")?;
        write_within(names, krate, module.module.index, path, out)?;
    }
    Ok(())
}

/// Writes the modules of a crate, each with an arrow from the one around it, and the globs among
/// modules, each as a broken arrow to where it takes names from.
pub fn write_graph<C: Codebase, O: io::Write>(
    names: &Names<'_, C>,
    krate: Crate,
    out: &mut O,
) -> io::Result<()> {
    writeln!(out, "digraph modules {{")?;
    writeln!(out, "    node [shape=box];")?;
    write_modules(names, krate, out)?;
    for collected in names.codebase().crates() {
        if collected.krate == krate {
            for edge in collected.outcome.edges.iter() {
                write_edge(names, edge, out)?;
            }
        }
    }
    writeln!(out, "}}")
}
