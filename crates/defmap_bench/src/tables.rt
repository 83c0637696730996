//! How long tables of bindings take to be filled and read.

use crate::report::{Entry, print_report};
use def_bindings::{Binding, BindingTable, Namespace, Visibility};
use def_ids::{Def, MapId, ModuleId, StructId};
use def_map::Table;
use def_tables::ScopeTable;
use item_tree::{Crate, Name};
use std::alloc::{AllocError, Global};
use std::io;
use std::rt::Clock;
use std::time::{Duration, Instant};

/// The map of the modules.
const MAP: MapId = MapId {
    krate: Crate(0),
    block: None,
};

const MODULES: usize = 10_000;

/// The names of each module.
const NAMES: usize = 100;

/// Of so many rounds the fastest counts.
const ROUNDS: usize = 5;

static REPORT: [Entry; 9] = [
    Entry::Time("ScopeTable\n  insertions", 0),
    Entry::Time("  look-ups by module", 1),
    Entry::Time("  look-ups by name", 2),
    Entry::Time("NumberedTable\n  insertions", 3),
    Entry::Time("  look-ups by module", 4),
    Entry::Time("  look-ups by name", 5),
    Entry::Ratio("NumberedTable to ScopeTable\n  insertions", 3, 0),
    Entry::Ratio("  look-ups by module", 4, 1),
    Entry::Ratio("  look-ups by name", 5, 2),
];

/// A name in a module.
type Place = (ModuleId, Name);

/// Each name in each module: name by name, or module by module, as a crate is collected.
fn places(alloc: Global, is_by_name: bool) -> Result<Vec<Place>, AllocError> {
    let mut places = Vec::new(alloc);
    for number in 0..MODULES * NAMES {
        let (index, name) = if is_by_name {
            (number % MODULES, number / MODULES)
        } else {
            (number / NAMES, number % NAMES)
        };
        places.push((ModuleId { map: MAP, index }, Name(name)))?;
    }
    Ok(places)
}

/// Binds the names at some places to structs that all see.
fn fill<T: BindingTable<Vis = Visibility>>(
    table: &mut T,
    places: &[Place],
) -> Result<(), AllocError> {
    for (module, name) in places {
        let binding = Binding {
            def: Def::Struct(StructId(name.0)),
            vis: Visibility::Public,
            import: None,
        };
        table.set(*module, *name, Namespace::Types, binding)?;
    }
    Ok(())
}

/// How long an empty table takes to be filled.
fn time_insertions<C: Clock, T: BindingTable<Vis = Visibility>>(
    clock: &C,
    table: &mut T,
    places: &[Place],
) -> io::Result<Duration> {
    let start = Instant::now(clock)?;
    fill(table, places)?;
    start.elapsed(clock)
}

/// Whether the names at all of these places are bound to their structs.
fn are_bound<T: BindingTable<Vis = Visibility>>(table: &T, places: &[Place]) -> bool {
    for (module, name) in places {
        match table.binding(*module, *name, Namespace::Types) {
            Some(there) if there.def == Def::Struct(StructId(name.0)) => {}
            _ => return false,
        }
    }
    true
}

/// How long a look-up at each place takes, all together.
fn time_lookups<C: Clock, T: BindingTable<Vis = Visibility>>(
    clock: &C,
    table: &T,
    places: &[Place],
) -> io::Result<Duration> {
    let start = Instant::now(clock)?;
    if are_bound(table, places) {
        start.elapsed(clock)
    } else {
        Err(io::Error::other("a name is not bound"))
    }
}

/// How long an empty table takes to be filled, and then to be read by module and by name.
fn time_table<C: Clock, T: BindingTable<Vis = Visibility> + Drop>(
    clock: &C,
    mut table: T,
    by_module: &[Place],
    by_name: &[Place],
) -> io::Result<[Duration; 3]> {
    Ok([
        time_insertions(clock, &mut table, by_module)?,
        time_lookups(clock, &table, by_module)?,
        time_lookups(clock, &table, by_name)?,
    ])
}

/// The least times of the two tables, which take turns, as the report numbers them.
fn least_times<C: Clock>(
    alloc: Global,
    clock: &C,
    by_module: &[Place],
    by_name: &[Place],
) -> io::Result<[Duration; 6]> {
    let mut least = [Duration::MAX; 6];
    for _ in 0..ROUNDS {
        let [a, b, c] = time_table(clock, ScopeTable::new(alloc)?, by_module, by_name)?;
        let [d, e, f] = time_table(clock, Table::of_map(alloc, MAP)?, by_module, by_name)?;
        let times = [a, b, c, d, e, f];
        for place in 0..6 {
            least[place] = least[place].min(times[place]);
        }
    }
    Ok(least)
}

/// Times both tables over the same places.
pub fn run<C: Clock, W: io::Write>(alloc: Global, clock: &C, out: &mut W) -> io::Result<()> {
    let by_module = places(alloc, false)?;
    let by_name = places(alloc, true)?;
    let times = least_times(alloc, clock, by_module.as_slice(), by_name.as_slice())?;
    print_report(out, REPORT.as_slice(), times.as_slice())
}
