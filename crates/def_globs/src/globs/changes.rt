//! Which names changed, while somebody watches.

use def_bindings::Slot;
use def_ids::ModuleId;
use std::alloc::{AllocError, Global};
use tree_ids::Name;

/// Names that changed, each with its module, in order. Nothing is noted while nobody watches.
#[derive(Drop)]
pub struct Changes {
    pub alloc: Global,
    is_watched: bool,
    names: Vec<(ModuleId, Name)>,
}

impl Changes {
    /// Nothing changed, and nobody watches.
    pub fn new(alloc: Global) -> Self {
        Changes {
            alloc,
            is_watched: false,
            names: Vec::new(alloc),
        }
    }

    /// Begins a watch.
    pub fn watch(&mut self) {
        self.is_watched = true;
    }

    /// Ends it, and forgets what changed.
    pub fn unwatch(&mut self) {
        self.is_watched = false;
        self.names.clear();
    }

    /// The names that changed.
    pub fn names(&self) -> &[(ModuleId, Name)] {
        self.names.as_slice()
    }

    /// Forgets them.
    pub fn forget(&mut self) {
        self.names.clear();
    }

    /// Notes a slot that changed in a module, if one did and it has a name.
    pub fn add(&mut self, module: ModuleId, slot: Option<Slot>) -> Result<(), AllocError> {
        if !self.is_watched {
            return Ok(());
        }
        match slot {
            Some(Slot::Named(name, _)) => {
                self.names.push((module, name))?;
                Ok(())
            }
            _ => Ok(()),
        }
    }
}
