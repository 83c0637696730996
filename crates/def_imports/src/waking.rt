//! Imports that wake: when each has its turn, and which names wake it.
ghost use Rattle.std.specs.Prelude.{◌≡◌};

use crate::coming::Turns;
use crate::watchers::Watchers;
use def_globs::Globs;
use def_map::Table;
use def_steps::ImportList;
use std::alloc::{AllocError, Global};

/// The turns of imports that are to come, and the imports that wake where a name changes.
#[derive(Drop)]
pub struct Waking {
    pub turns: Turns,
    pub watchers: Watchers,
}

impl Waking {
    /// A first turn for each of so many imports, those that are unresolved first. Nothing is watched.
    pub fn new(alloc: Global, unresolved: usize, indeterminate: usize) -> Result<Self, AllocError> {
        let mut turns = Turns::new(alloc, unresolved);
        turns.wake_list(ImportList::Indeterminate, indeterminate)?;
        let imports = unresolved.saturating_add(indeterminate);
        Ok(Waking {
            turns,
            watchers: Watchers::new(alloc, imports)?,
        })
    }

    /// Wakes the imports that watch a name that changed.
    pub fn wake_changed(&mut self, table: &mut Globs<Table>) -> Result<(), AllocError>
        ensures { table.new ≡ table.old }
    {
        'changed: for changed in table.changed() {
            self.watchers.wake(*changed, &mut self.turns)?;
        }
        table.forget_changed();
        Ok(())
    }

    /// Wakes all of so many imports.
    pub fn wake_all(&mut self, unresolved: usize, indeterminate: usize) -> Result<(), AllocError> {
        self.turns.wake_list(ImportList::Unresolved, unresolved)?;
        self.turns
            .wake_list(ImportList::Indeterminate, indeterminate)
    }
}
