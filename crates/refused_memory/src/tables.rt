//! Tables of bindings, each of whose writes is refused memory.

use crate::counts::Counts;
use crate::refusal::{MOST, end, refuse};
use def_bindings::{Binding, BindingTable, EdgeTo, ImportOrExternCrate, Namespace, Visibility};
use def_ids::{Def, GlobId, MapId, ModuleId, StructId, TraitId, UseId};
use def_map::Table;
use def_tables::{NumberedTable, ScopeTable};
use item_tree::{Crate, Name};
use std::alloc::{AllocError, Global};
use std::io;

/// The map of the modules.
const MAP: MapId = MapId {
    krate: Crate(0),
    block: None,
};

/// How many modules are written to, how many names each may have, and how many writes there are.
const MODULES: usize = 3;

const NAMES: usize = 5;

const WRITES: usize = 120;

const NAMESPACES: [Namespace; 3] = [Namespace::Types, Namespace::Values, Namespace::Macros];

/// A table, which is made empty.
pub trait Made: BindingTable<Vis = Visibility> + Drop {
    fn made(alloc: Global) -> Result<Self, AllocError>;
}

impl Made for ScopeTable<Visibility> {
    fn made(alloc: Global) -> Result<Self, AllocError> {
        ScopeTable::new(alloc)
    }
}

impl Made for NumberedTable<Visibility> {
    fn made(alloc: Global) -> Result<Self, AllocError> {
        NumberedTable::new(alloc)
    }
}

impl Made for Table {
    fn made(alloc: Global) -> Result<Self, AllocError> {
        Table::of_map(alloc, MAP)
    }
}

/// A module of the map.
fn module(index: usize) -> ModuleId {
    ModuleId { map: MAP, index }
}

fn glob(number: usize) -> GlobId {
    GlobId {
        use_id: UseId(number),
        idx: 0,
    }
}

/// A namespace, by its number.
fn namespace(number: usize) -> Namespace {
    match number % 3 {
        0 => Namespace::Types,
        1 => Namespace::Values,
        _ => Namespace::Macros,
    }
}

/// One of the writes, by its number.
fn write<T: Made>(table: &mut T, number: usize) -> Result<(), AllocError> {
    let place = module(number % MODULES);
    let vis = Visibility::Module(module(number % 11));
    match (number / 5) % 4 {
        0 | 1 => {
            let name = Name((number / 3) % NAMES);
            let binding = Binding {
                def: Def::Struct(StructId(number)),
                vis,
                import: Some(ImportOrExternCrate::Glob(glob(number % 4))),
            };
            table.set(place, name, namespace(number / 2), binding)
        }
        2 => table.set_unnamed(place, TraitId(number % 4), vis),
        _ => {
            let edge = EdgeTo {
                importer: module(number % 5),
                vis,
                glob: glob(number % 2),
            };
            table.set_edge(place, edge)
        }
    }
}

/// A table after so many writes.
fn written<T: Made>(alloc: Global, count: usize) -> Result<T, AllocError> {
    let mut table = T::made(alloc)?;
    for number in 0..count {
        write(&mut table, number)?;
    }
    Ok(table)
}

/// Whether a name stands for the same in two tables.
fn agree_on_name<T: Made>(one: &T, other: &T, place: ModuleId, name: Name) -> bool {
    for ns in NAMESPACES {
        if one.binding(place, name, ns) != other.binding(place, name, ns) {
            return false;
        }
    }
    true
}

/// Whether all names of a module stand for the same in two tables.
fn agree_on_names<T: Made>(one: &T, other: &T, place: ModuleId) -> bool {
    for number in 0..NAMES {
        if !agree_on_name(one, other, place, Name(number)) {
            return false;
        }
    }
    true
}

/// Whether a module's lists are the same in two tables.
fn agree_on_lists<T: Made>(one: &T, other: &T, place: ModuleId) -> bool {
    for index in 0..NAMES + 1 {
        if one.name_at(place, index) != other.name_at(place, index)
            || one.unnamed_at(place, index) != other.unnamed_at(place, index)
            || one.edge_at(place, index) != other.edge_at(place, index)
        {
            return false;
        }
    }
    true
}

/// Whether two tables have the same content.
fn agree<T: Made>(one: &T, other: &T) -> bool {
    for index in 0..MODULES {
        let place = module(index);
        if !agree_on_names(one, other, place) || !agree_on_lists(one, other, place) {
            return false;
        }
    }
    true
}

/// Whether a table whose write was refused is as before, and once it is made again as after it.
fn is_kept<T: Made>(
    mut table: T,
    before: &T,
    after: &T,
    number: usize,
) -> Result<bool, AllocError> {
    if !agree(before, &table) {
        return Ok(false);
    }
    write(&mut table, number)?;
    Ok(agree(after, &table))
}

/// A write whose request of this number is refused. Answers whether one was; none where it is
/// wrong.
fn try_write<T: Made>(
    alloc: Global,
    before: &T,
    after: &T,
    number: usize,
    request: usize,
) -> Result<Option<bool>, AllocError> {
    let mut table: T = written(alloc, number)?;
    refuse(alloc, request);
    let done = write(&mut table, number);
    let is_refused = end(alloc);
    if done.is_err() != is_refused {
        return Ok(None);
    }
    if is_refused && !is_kept(table, before, after, number)? {
        return Ok(None);
    }
    Ok(Some(is_refused))
}

/// Refuses each request of a write in turn, counts them, and answers whether all is right.
fn refuse_write<T: Made>(
    alloc: Global,
    number: usize,
    counts: &mut Counts,
) -> Result<bool, AllocError> {
    let before: T = written(alloc, number)?;
    let after: T = written(alloc, number.saturating_add(1))?;
    for request in 1..MOST {
        match try_write(alloc, &before, &after, number, request)? {
            Some(true) => counts.add_refused(),
            Some(false) => return Ok(true),
            None => return Ok(false),
        }
    }
    Ok(false)
}

/// Refuses each request of each write in turn, and counts them. A write that is wrong is told.
pub fn refuse_writes<T: Made, W: io::Write>(
    alloc: Global,
    name: &str,
    counts: &mut Counts,
    out: &mut W,
) -> io::Result<()> {
    let mut is_right = true;
    for number in 0..WRITES {
        if !refuse_write::<T>(alloc, number, counts)? {
            writeln!(
                out,
                "write {number} of {name}: it does not leave what it should"
            )?;
            is_right = false;
        }
    }
    counts.add_done(is_right);
    Ok(())
}
