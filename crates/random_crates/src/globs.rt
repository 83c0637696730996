//! Whether names are closed, coherent and raised along the globs that are recorded.

use crate::answer::Answer;
use def_bindings::{
    Binding, BindingTable, ImportOrExternCrate, Visibility, is_raised, lesser_or_import,
};
use def_ids::ModuleId;
use def_interner::LocationId;
use def_map::ScopeEntry;
use def_rules::Edge;

/// Whether an edge would raise a visibility of its importer, by one of its source.
fn rises(answer: &Answer<'_>, edge: &Edge, own: Visibility, there: Visibility) -> bool {
    let tree = &answer.world.map.tree;
    is_raised(tree, there, lesser_or_import(tree, own, edge.vis))
}

/// Whether a module has globs, so that what it binds may once have been another definition's.
fn has_globs(answer: &Answer<'_>, module: ModuleId) -> bool {
    for (glob, _) in &answer.outcome().targets {
        let loc = glob.use_id.lookup(answer.world.session);
        if loc.is_some_and(|loc| loc.container == module) {
            return true;
        }
    }
    false
}

/// The visibility of a binding that has kept its definition, since the one target of the glob that
/// brought it has no globs.
fn kept_vis(answer: &Answer<'_>, there: Binding<Visibility>) -> Option<Visibility> {
    let Some(ImportOrExternCrate::Glob(glob)) = there.import else {
        return None;
    };
    match answer.target_of(glob) {
        Some(target) if !has_globs(answer, target) => Some(there.vis),
        _ => None,
    }
}

/// What does not hold of what an edge's source binds with a visibility. Where the importer sees it,
/// that binds it too, with `there` if the edge is not to raise it.
fn fault_of_bound(
    answer: &Answer<'_>,
    edge: &Edge,
    own: Visibility,
    is_bound: bool,
    there: Option<Visibility>,
) -> Option<&'static str> {
    if !answer.sees(edge.importer, own) {
        None
    } else if !is_bound {
        Some("names are not closed along globs")
    } else if there.is_some_and(|there| rises(answer, edge, own, there)) {
        Some("a visibility has not risen along a glob")
    } else {
        None
    }
}

/// What does not hold along an edge.
fn fault_along(answer: &Answer<'_>, edge: &Edge) -> Option<&'static str> {
    let source = answer.scope(edge.source)?;
    let is_still = !has_globs(answer, edge.source);
    for entry in source.entries() {
        let there = answer.binding(edge.importer, entry.name, entry.ns);
        let vis = match there {
            Some(there) if is_still && there.def == entry.item.def => kept_vis(answer, there),
            _ => None,
        };
        let fault = fault_of_bound(answer, edge, entry.item.vis, there.is_some(), vis);
        if fault.is_some() {
            return fault;
        }
    }
    for (id, vis) in source.unnamed_traits() {
        let there = answer.world.table.unnamed_vis(edge.importer, id);
        let kept = if is_still { there } else { None };
        let fault = fault_of_bound(answer, edge, vis, there.is_some(), kept);
        if fault.is_some() {
            return fault;
        }
    }
    None
}

/// Whether a binding is coherent with the one target of the glob that brought it, if one did: the
/// target binds the same, or hides what it binds.
fn is_coherent(answer: &Answer<'_>, importer: ModuleId, entry: &ScopeEntry) -> bool {
    let Some(ImportOrExternCrate::Glob(glob)) = entry.item.import else {
        return true;
    };
    let Some(target) = answer.target_of(glob) else {
        return true;
    };
    match answer.binding(target, entry.name, entry.ns) {
        Some(there) => there.def == entry.item.def || !answer.sees(importer, there.vis),
        None => answer.is_left_out(target),
    }
}

/// Whether all bindings of a module are coherent.
fn is_module_coherent(answer: &Answer<'_>, module: ModuleId) -> bool {
    if let Some(scope) = answer.scope(module) {
        for entry in scope.entries() {
            if !is_coherent(answer, module, &entry) {
                return false;
            }
        }
    }
    true
}

/// What does not hold along globs, if something does not. Roots of procedural macros are left out
/// as importers, since functions are taken out of them.
pub fn fault_of_globs(answer: &Answer<'_>) -> Option<&'static str> {
    for edge in &answer.outcome().edges {
        if !answer.is_left_out(edge.importer) {
            let fault = fault_along(answer, edge);
            if fault.is_some() {
                return fault;
            }
        }
    }
    for index in 0..answer.collected.def_map.modules().len() {
        let module = answer.module(index);
        if !answer.is_left_out(module) && !is_module_coherent(answer, module) {
            return Some("names are not coherent along globs");
        }
    }
    None
}
