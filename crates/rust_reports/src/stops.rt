//! Where paths stop that are not found.

use crate::absent::Absent;
use def_ids::{Def, Edition, ModuleId};
use def_rules::LeftImport;
use item_tree::{ModPath, Name, PathKind};
use rust_codebase::Codebase;
use rust_names::Names;

/// Where a path stops.
#[derive(Clone, Copy, PartialEq, Eq, Debug)]
pub(crate) enum Stop {
    /// At a crate that is not given.
    Absent(Name),
    /// A module does not bind a name: the place of the name in the path.
    Lacks {
        module: ModuleId,
        name: Name,
        at: usize,
    },
    /// Elsewhere, as in an enum.
    Other,
}

/// Where the walk along a path stands.
#[derive(Clone, Copy)]
enum Walk {
    At(ModuleId),
    Stopped(Stop),
}

/// The module that lies so many levels above another one.
fn above<C: Codebase>(names: &Names<'_, C>, module: ModuleId, levels: u8) -> ModuleId {
    let mut above = module;
    if let Some(map) = names.map(module.map.krate) {
        for _ in 0..levels {
            above.index = map.parent(above.index).unwrap_or(0);
        }
    }
    above
}

/// What a module binds to a name among the types.
fn type_of<C: Codebase>(names: &Names<'_, C>, module: ModuleId, name: Name) -> Option<Def> {
    Some(names.scope(module)?.get(name).types?.def)
}

/// The walk behind the first name of a path that begins with no word of its own.
fn first_name<C: Codebase>(
    names: &Names<'_, C>,
    absent: &Absent,
    module: ModuleId,
    name: Name,
    at: usize,
) -> Walk {
    match type_of(names, module, name) {
        Some(Def::Module(next)) => return Walk::At(next),
        Some(_) => return Walk::Stopped(Stop::Other),
        None => {}
    }
    let krate = module.map.krate;
    if let Some(root) = names.codebase().extern_root(krate, name) {
        return Walk::At(root);
    }
    if absent.has_crate(krate, name) {
        return Walk::Stopped(Stop::Absent(name));
    }
    Walk::Stopped(Stop::Lacks { module, name, at })
}

/// The walk behind a further name of a path.
fn next_name<C: Codebase>(names: &Names<'_, C>, module: ModuleId, name: Name, at: usize) -> Walk {
    match type_of(names, module, name) {
        Some(Def::Module(next)) => Walk::At(next),
        Some(_) => Walk::Stopped(Stop::Other),
        None => Walk::Stopped(Stop::Lacks { module, name, at }),
    }
}

/// Where a path begins: a module, and whether its first name may be a crate's.
fn beginning<C: Codebase>(
    names: &Names<'_, C>,
    absent: &Absent,
    module: ModuleId,
    path: &ModPath,
) -> (ModuleId, bool) {
    let root = ModuleId::crate_root(module.map.krate);
    match path.kind {
        PathKind::Crate => (root, false),
        PathKind::Super(levels) => (above(names, module, levels), false),
        PathKind::DollarCrate(krate) => (ModuleId::crate_root(krate), false),
        PathKind::Abs => (root, true),
        PathKind::Plain => match absent.edition(module.map.krate) {
            Edition::Edition2015 if lacks_first(names, module, path) => (root, true),
            _ => (module, true),
        },
    }
}

/// Whether a module does not bind the first name of a path.
fn lacks_first<C: Codebase>(names: &Names<'_, C>, module: ModuleId, path: &ModPath) -> bool {
    match path.segments.as_slice().first() {
        Some(name) => type_of(names, module, *name).is_none(),
        None => false,
    }
}

/// Where a path stops. What it is to be found in is a module if `is_glob`, and else its last name
/// is to be bound in one.
pub(crate) fn stop_of<C: Codebase>(
    names: &Names<'_, C>,
    absent: &Absent,
    module: ModuleId,
    path: &ModPath,
    is_glob: bool,
) -> Stop {
    let segments = path.segments.as_slice();
    let (mut here, may_be_crate) = beginning(names, absent, module, path);
    for (at, name) in segments.iter().enumerate() {
        let is_last = at.saturating_add(1) == segments.len();
        let walk = if at == 0 && may_be_crate {
            first_name(names, absent, here, *name, at)
        } else if is_last && !is_glob {
            return last_name(names, here, *name, at);
        } else {
            next_name(names, here, *name, at)
        };
        match walk {
            Walk::At(next) => here = next,
            Walk::Stopped(stop) => return stop,
        }
    }
    Stop::Other
}

/// Whether a module binds a name in any namespace.
fn binds<C: Codebase>(names: &Names<'_, C>, module: ModuleId, name: Name) -> bool {
    match names.scope(module) {
        Some(scope) => {
            let found = scope.get(name);
            found.types.is_some() || found.values.is_some() || found.macros.is_some()
        }
        None => false,
    }
}

/// Where a path stops whose last name a module is to bind in any namespace.
fn last_name<C: Codebase>(names: &Names<'_, C>, module: ModuleId, name: Name, at: usize) -> Stop {
    if binds(names, module, name) {
        Stop::Other
    } else {
        Stop::Lacks { module, name, at }
    }
}

/// Where an import stops that is left over.
pub(crate) fn stop_of_import<C: Codebase>(
    names: &Names<'_, C>,
    absent: &Absent,
    import: &LeftImport,
) -> Stop {
    let is_glob = names.is_glob(import.ast_id, import.idx);
    stop_of(names, absent, import.module, &import.path, is_glob)
}
