//! What the path of an import reads of the map in work.

use def_bindings::{BindingTable, ImportOrExternCrate, Namespace};
use def_ids::{Edition, ModuleId};
use def_map::{Item, SourceDatabase, Table, World};
use def_steps::Import;
use item_tree::{Name, PathKind};
use std::alloc::AllocError;

/// The names that the path of an import reads, each with the module of the map in work in which it
/// looks the name up, whether or not it is bound there. Those that cannot change are left out. While
/// imports are recorded the path gives the same until one of these changes, or the prelude does.
pub fn names_read<D: SourceDatabase>(
    world: &World<'_, D, Table>,
    import: &Import,
    names: &mut Vec<(ModuleId, Name)>,
) -> Result<(), AllocError> {
    let path = &import.written.path;
    let segments = path.segments.as_slice();
    let root = ModuleId::crate_root(world.map.tree.map.krate);
    match path.kind {
        PathKind::Crate => read_on(world, Some(root), segments, names),
        PathKind::DollarCrate(krate) => {
            read_on(world, Some(ModuleId::crate_root(krate)), segments, names)
        }
        PathKind::Super(levels) => {
            let module = world.map.tree.ancestor(import.module_id, levels as usize);
            read_on(world, module, segments, names)
        }
        PathKind::Abs => read_first(world, scope_of(world, root, None), segments, names),
        PathKind::Plain => {
            let scope = scope_of(world, root, Some(import.module_id));
            read_first(world, scope, segments, names)
        }
    }
}

/// The module that the first name is looked up in: in edition 2015 the crate's root.
fn scope_of<D>(
    world: &World<'_, D, Table>,
    root: ModuleId,
    later: Option<ModuleId>,
) -> Option<ModuleId> {
    if world.map.krate.edition == Edition::Edition2015 {
        Some(root)
    } else {
        later
    }
}

/// The names from the first one on, which may also be that of a crate or stand in the prelude.
fn read_first<D>(
    world: &World<'_, D, Table>,
    scope: Option<ModuleId>,
    segments: &[Name],
    names: &mut Vec<(ModuleId, Name)>,
) -> Result<(), AllocError> {
    let [first, rest @ ..] = segments else {
        return Ok(());
    };
    if rest.is_empty() {
        note(world, scope, *first, names)?;
        return note(world, world.map.prelude, *first, names);
    }
    let mut module = read(world, scope, *first, names)?;
    if module.is_none() {
        module = world.local.extern_entry(*first).map(|entry| entry.root);
    }
    if module.is_none() {
        module = read(world, world.map.prelude, *first, names)?;
    }
    read_on(world, module, rest, names)
}

/// The names from a module on.
fn read_on<D>(
    world: &World<'_, D, Table>,
    module: Option<ModuleId>,
    segments: &[Name],
    names: &mut Vec<(ModuleId, Name)>,
) -> Result<(), AllocError> {
    let [others @ .., last] = segments else {
        return Ok(());
    };
    let mut module = module;
    for name in others {
        module = read(world, module, *name, names)?;
        if module.is_none() {
            return Ok(());
        }
    }
    note(world, module, *last, names)
}

/// Notes a name in a module, where that is one of the map in work.
fn note<D>(
    world: &World<'_, D, Table>,
    module: Option<ModuleId>,
    name: Name,
    names: &mut Vec<(ModuleId, Name)>,
) -> Result<(), AllocError> {
    if let Some(module) = module {
        if module.map == world.map.tree.map {
            names.push((module, name))?;
        }
    }
    Ok(())
}

/// Whether what a name binds in types stays, as what no glob brought does.
fn stays(found: &Option<Item>) -> bool {
    match found {
        Some(binding) => match binding.import {
            Some(ImportOrExternCrate::Glob(_)) => false,
            _ => true,
        },
        None => false,
    }
}

/// The module that was found, if it is one.
fn module_in(found: &Option<Item>) -> Option<ModuleId> {
    match found {
        Some(binding) => binding.def.as_module(),
        None => None,
    }
}

/// Notes a name with others behind it in a module, where that is one of the map in work, and answers
/// the module that it leads to. It is looked up in types alone, so what stays there is not noted.
fn read<D>(
    world: &World<'_, D, Table>,
    module: Option<ModuleId>,
    name: Name,
    names: &mut Vec<(ModuleId, Name)>,
) -> Result<Option<ModuleId>, AllocError> {
    let Some(module) = module else {
        return Ok(None);
    };
    if module.map != world.map.tree.map {
        return Ok(None);
    }
    let found = world.table.binding(module, name, Namespace::Types);
    if !stays(&found) {
        names.push((module, name))?;
    }
    Ok(module_in(&found))
}
