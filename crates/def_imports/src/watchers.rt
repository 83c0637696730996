//! Which imports a changed name wakes.
ghost use Rattle.std.specs.Prelude.{◌<◌};

use crate::coming::Turns;
use crate::reads::names_read;
use def_ids::ModuleId;
use def_map::{SourceDatabase, Table, World};
use def_steps::{Import, ImportAt};
use indexmap::IndexMap;
use indexmap::map::Entry;
use item_tree::Name;
use std::alloc::{AllocError, Global};
use std::mem;

/// One import that watches a name, and the number of the name's watch before it, or 0.
#[derive(Clone, Copy)]
struct Watch {
    import: ImportAt,
    before: usize,
}

/// The imports that are not ready, under each name that their paths read.
#[derive(Drop)]
pub struct Watchers {
    /// The number of the last watch of each name, counted from 1. It is 0 where the name changed
    /// since.
    last: IndexMap<(ModuleId, Name), usize>,
    watches: Vec<Watch>,
    /// What the import reads that has its turn.
    read: Vec<(ModuleId, Name)>,
}

/// Adds a watch of a name.
fn add(
    last: &mut IndexMap<(ModuleId, Name), usize>,
    watches: &mut Vec<Watch>,
    name: (ModuleId, Name),
    import: ImportAt,
) -> Result<(), AllocError> {
    let number = watches.len().saturating_add(1);
    let before = match last.entry(name)? {
        Entry::Occupied(there) => mem::replace(there.into_mut(), number),
        Entry::Vacant(free) => {
            free.insert(number);
            0
        }
    };
    watches.push(Watch { import, before })?;
    Ok(())
}

/// The number of the last watch of a name, from which on all are taken out.
fn take(last: &mut IndexMap<(ModuleId, Name), usize>, name: (ModuleId, Name)) -> usize {
    match last.get_mut(&name) {
        Some(last) => {
            let number = *last;
            *last = 0;
            number
        }
        None => 0,
    }
}

/// The number of the watch before one, or 0.
fn earlier(number: usize, before: usize) -> usize
    requires { 0 < number }
    ensures { result < number }
{
    if before < number { before } else { 0 }
}

impl Watchers {
    /// Nothing is watched. There is room for so many imports, each of which reads two names or so.
    pub fn new(alloc: Global, imports: usize) -> Result<Self, AllocError> {
        let mut last = IndexMap::new(alloc);
        last.reserve(imports)?;
        Ok(Watchers {
            last,
            watches: Vec::with_capacity(alloc, imports.saturating_mul(2))?,
            read: Vec::new(alloc),
        })
    }

    /// Notes what the path of an import reads, before the import is tried.
    pub fn read<D: SourceDatabase>(
        &mut self,
        world: &World<'_, D, Table>,
        import: &Import,
    ) -> Result<(), AllocError> {
        self.read.clear();
        names_read(world, import, &mut self.read)
    }

    /// Lets an import watch what was read last.
    pub fn watch(&mut self, import: ImportAt) -> Result<(), AllocError> {
        for name in self.read.as_slice() {
            add(&mut self.last, &mut self.watches, *name, import)?;
        }
        Ok(())
    }

    /// Wakes the imports that watch a name. They watch it no longer.
    pub fn wake(&mut self, name: (ModuleId, Name), turns: &mut Turns) -> Result<(), AllocError> {
        let mut number = take(&mut self.last, name);
        'watches: while number != 0 {
            let Some(watch) = self.watches.as_slice().get(number - 1) else {
                return Ok(());
            };
            turns.wake(watch.import)?;
            number = earlier(number, watch.before);
        }
        Ok(())
    }
}
