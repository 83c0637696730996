//! The modules of a map in the order of their paths, and what each binds in the order of names.

use def_ids::ModuleId;
use def_map::{Item, ItemScope};
use item_tree::Crate;
use rust_codebase::Codebase;
use rust_names::Names;
use std::alloc::AllocError;

/// The words for the namespaces in which a binding stands.
const SPACES: [&str; 8] = [
    "",
    "types",
    "values",
    "types, values",
    "macros",
    "types, macros",
    "values, macros",
    "types, values, macros",
];

/// The words for some namespaces: one, two and four, added.
pub(crate) fn spaces_text(spaces: usize) -> &'static str {
    SPACES.get(spaces).copied().unwrap_or("")
}

/// A name that a module binds, and in which namespaces to this: one, two and four, added.
#[derive(Clone, Copy)]
pub(crate) struct BoundName<'a> {
    pub(crate) name: &'a str,
    pub(crate) spaces: usize,
    pub(crate) item: Item,
}

/// A module and its path.
#[derive(Drop)]
pub(crate) struct PathOfModule {
    pub(crate) path: String,
    pub(crate) module: ModuleId,
}

/// Adds a binding to those of its name, or a namespace to one that is the same.
fn add_bound<'a>(
    bound: &mut Vec<BoundName<'a>>,
    first: usize,
    name: &'a str,
    space: usize,
    item: Option<Item>,
) -> Result<(), AllocError> {
    let Some(item) = item else {
        return Ok(());
    };
    for at in first..bound.len() {
        if let Some(earlier) = bound.get_mut(at) {
            if earlier.item == item {
                earlier.spaces |= space;
                return Ok(());
            }
        }
    }
    let spaces = space;
    bound.push(BoundName { name, spaces, item })?;
    Ok(())
}

/// The modules of a crate, in the order of their paths.
pub(crate) fn modules<C: Codebase>(
    names: &Names<'_, C>,
    krate: Crate,
) -> Result<Vec<PathOfModule>, AllocError> {
    let mut modules = Vec::new(names.alloc);
    let Some(map) = names.map(krate) else {
        return Ok(modules);
    };
    for index in 0..map.modules().len() {
        let module = ModuleId {
            map: map.id(),
            index,
        };
        let path = names.module_path(module)?;
        modules.push(PathOfModule { path, module })?;
    }
    modules.sort_by(|one, other| one.path.as_str().cmp(other.path.as_str()))?;
    Ok(modules)
}

/// What a scope binds, in the order of names.
pub(crate) fn bound_names<'a, C: Codebase>(
    names: &Names<'a, C>,
    scope: ItemScope<'_>,
) -> Result<Vec<BoundName<'a>>, AllocError> {
    let mut bound = Vec::new(names.alloc);
    for (name, found) in scope.resolutions() {
        let (first, text) = (bound.len(), names.text(name));
        add_bound(&mut bound, first, text, 1, found.types)?;
        add_bound(&mut bound, first, text, 2, found.values)?;
        add_bound(&mut bound, first, text, 4, found.macros)?;
    }
    bound.sort_by(|one, other| one.name.cmp(other.name))?;
    Ok(bound)
}
