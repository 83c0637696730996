//! Whether imports that are left over resolve to nothing, and all are bound in each namespace that
//! their paths give.

use crate::answer::{Answer, bound_name};
use def_bindings::Namespace;
use def_ids::{ModuleId, UseId, UseLoc};
use def_interner::LocationId;
use def_map::{Asked, PerNs, ReachedFixedPoint, resolve_path_fp_with_macro};
use item_tree::{ImportKind, ModItemKind, ModPath, UseImport};

/// What an import's path gives in the answered map, if it gives something and ends there.
fn given(answer: &Answer<'_>, module: ModuleId, path: &ModPath) -> Option<PerNs> {
    let found = resolve_path_fp_with_macro(&answer.world, Asked::for_import(), module, path);
    let is_whole = found.reached_fixedpoint == ReachedFixedPoint::Yes
        && found.segment_index.is_none();
    if is_whole && !found.resolved_def.is_none() {
        Some(found.resolved_def)
    } else {
        None
    }
}

/// Whether a named import is bound in each namespace that its path gives.
fn is_bound(answer: &Answer<'_>, loc: &UseLoc, import: &UseImport) -> bool {
    let is_glob = import.kind == ImportKind::Glob;
    let last = import.path.segments.as_slice().last().copied();
    let name = last.and_then(|last| bound_name(last, import.alias));
    let (false, Some(name), Some(given)) = (
        is_glob,
        name,
        given(answer, loc.container, &import.path),
    ) else {
        return true;
    };
    let is_of_all = import.kind == ImportKind::Plain;
    let namespaces = [
        (given.types.is_some(), Namespace::Types),
        (is_of_all && given.values.is_some(), Namespace::Values),
        (is_of_all && given.macros.is_some(), Namespace::Macros),
    ];
    for (is_given, ns) in namespaces {
        if is_given && answer.binding(loc.container, name, ns).is_none() {
            return false;
        }
    }
    true
}

/// Whether the imports of a `use` item are bound so.
fn are_use_bound(answer: &Answer<'_>, loc: &UseLoc) -> bool {
    let Some(node) = answer.node(loc.position) else {
        return false;
    };
    let ModItemKind::Use { imports, .. } = &node.kind else {
        return false;
    };
    for import in imports.as_slice() {
        if !is_bound(answer, loc, import) {
            return false;
        }
    }
    true
}

/// Whether all imports are bound so. Nothing is asked of a crate that
/// depends on another, from which an import may once have taken what is public there; nor of a root
/// of procedural macros, from which functions are taken out.
fn are_all_bound(answer: &Answer<'_>) -> bool {
    if !answer.is_alone || answer.is_proc_macro {
        return true;
    }
    for number in 0..usize::MAX {
        let Some(loc) = UseId(number).lookup(answer.world.session) else {
            break;
        };
        if loc.container.map == answer.module(0).map && !are_use_bound(answer, loc) {
            return false;
        }
    }
    true
}

/// What does not hold of the imports of a run that did not meet the limit, if something does not.
pub fn fault_of_imports(answer: &Answer<'_>) -> Option<&'static str> {
    if answer.outcome().limit_met {
        return None;
    }
    for left in &answer.outcome().imports {
        if given(answer, left.module, &left.path).is_some() {
            return Some("an import that is left over resolves");
        }
    }
    if are_all_bound(answer) {
        None
    } else {
        Some("an import is not bound in a namespace")
    }
}
