//! What a crate's maps share beside its map.
ghost use Rattle.std.specs.Prelude.{◌≡◌, OnOk, OnErr};
ghost use Rattle.def_modules.specs.Locals.{local_view, with_extern, entry_in};
ghost use Rattle.def_modules.specs.MapView.{empty_local};

use def_ids::{ExternCrateId, ModuleId};
use indexmap::IndexMap;
use std::alloc::{AllocError, Global};
use tree_ids::Name;

/// A crate that is named outside all modules: its root, and the `extern crate` that put it there,
/// if one did.
#[derive(Clone, Copy)]
pub struct ExternPreludeEntry {
    pub root: ModuleId,
    pub by: Option<ExternCrateId>,
}

/// The extern prelude of a crate.
pub struct LocalDefMap {
    pub extern_prelude: IndexMap<Name, ExternPreludeEntry>,
}

impl Drop for LocalDefMap {
    fn drop(self) {
        let LocalDefMap { extern_prelude: _ } = self;
    }
}

impl LocalDefMap {
    /// A local map without names.
    pub fn new(alloc: Global) -> LocalDefMap
        ensures { local_view result ≡ empty_local }
    {
        LocalDefMap {
            extern_prelude: IndexMap::new(alloc),
        }
    }

    /// The crate of a name.
    pub fn extern_entry(&self, name: Name) -> Option<ExternPreludeEntry>
        ensures { entry_in result ≡ (local_view self.now).extern_prelude name }
    {
        self.extern_prelude.get(&name).copied()
    }

    /// Names a crate, in the place of an earlier one of the name.
    pub fn insert(&mut self, name: Name, entry: ExternPreludeEntry) -> Result<(), AllocError>
        ensures ok { OnOk result (local_view self.new ≡ with_extern (local_view self.old) name entry) }
        ensures err { OnErr result (local_view self.new ≡ local_view self.old) }
    {
        self.extern_prelude.insert(name, entry)?;
        Ok(())
    }
}
