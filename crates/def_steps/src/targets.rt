//! What each glob was recorded with, and the edges and targets that are answered.
ghost use Rattle.std.specs.Prelude.{◌≡◌, [], unwrap_or, IfOk, OnOk, map};
ghost use Rattle.indexmap.specs.IndexMap.{get, IsUnique};
ghost use Rattle.def_ids.specs.Equality.{glob_eq};
ghost use Rattle.def_tables.specs.NumberedTable.{all_edges};
ghost use Rattle.def_modules.specs.KeyedLists.{PushesUnder};
ghost use Rattle.def_rules.specs.Globs.{is_among, with_target};
ghost use Rattle.def_rules.specs.Report.{shown_targets};
ghost use Rattle.def_steps.specs.Shown.{shown_edge};

use def_ids::{Def, GlobId};
use def_map::Table;
use def_rules::Edge;
use indexmap::IndexMap;
use item_tree::Seq;
use std::alloc::{AllocError, Global};

/// Whether a definition is in a list.
fn is_among(def: Def, defs: &[Def]) -> bool
    ensures { result ≡ is_among def defs.now }
{
    'defs: for other in defs {
        if *other == def {
            return true;
        }
    }
    false
}

/// Whether a glob was recorded with a definition.
fn is_recorded(targets: &IndexMap<GlobId, Seq<Def>>, glob: GlobId, def: Def) -> bool
    ensures { result ≡ is_among def (unwrap_or (get glob_eq targets.now glob) []) }
{
    match targets.get(&glob) {
        Some(defs) => is_among(def, defs.as_slice()),
        None => false,
    }
}

/// Appends a definition to what a glob was recorded with.
fn push_target(
    targets: &mut IndexMap<GlobId, Seq<Def>>,
    glob: GlobId,
    def: Def,
) -> Result<(), AllocError>
    ensures { OnOk result (PushesUnder glob_eq (get glob_eq targets.old) (get glob_eq targets.new) glob def) }
{
    let alloc = *targets.allocator();
    let list = targets
        .entry(glob)?
        .or_insert(Seq::from_vec(Vec::new(alloc)));
    list.push(def)?;
    Ok(())
}

/// Adds a definition to what a glob was recorded with, once. On `Err` nothing but safety is
/// promised.
pub fn add_target(
    targets: &mut IndexMap<GlobId, Seq<Def>>,
    glob: GlobId,
    def: Def,
) -> Result<(), AllocError>
    ensures { OnOk result (get glob_eq targets.new ≡ with_target glob def (get glob_eq targets.old)) }
{
    if is_recorded(targets, glob, def) {
        return Ok(());
    }
    push_target(targets, glob, def)?;
    Ok(())
}

/// All edges of a table, in order of recording.
pub fn edges_of(alloc: Global, table: &Table) -> Result<Vec<Edge>, AllocError>
    ensures { IfOk result (λ edges. edges.items ≡ map shown_edge (all_edges table.now)) }
{
    let mut edges = Vec::new(alloc);
    edges.reserve(table.edge_count())?;
    let mut number = 0;
    'edges: while let Some((source, edge)) = table.numbered_edge(number) {
        edges.push(Edge {
            source,
            importer: edge.importer,
            vis: edge.vis,
            glob: edge.glob,
        })?;
        number += 1;
    }
    Ok(edges)
}

/// What each glob was recorded with, in order.
pub fn targets_of(
    alloc: Global,
    targets: &IndexMap<GlobId, Seq<Def>>,
) -> Result<Vec<(GlobId, Vec<Def>)>, AllocError>
    ensures listed { IfOk result (λ list. map shown_targets list.items ≡ targets.now.entries) }
    ensures once { IsUnique glob_eq targets.now }
{
    let mut list = Vec::new(alloc);
    list.reserve(targets.len())?;
    let mut number = 0;
    'targets: while let Some((glob, defs)) = targets.get_index(number) {
        let copy = defs.as_slice().to_vec(alloc)?;
        list.push((*glob, copy))?;
        number += 1;
    }
    Ok(list)
}
