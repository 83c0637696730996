//! Where the files of modules lie.
ghost use Rattle.std.specs.Prelude.{◌≡◌, None, Some, option_map, OnOk};
ghost use Rattle.def_ids.specs.Ids.{is_same_module};
ghost use Rattle.def_modules.specs.Updates.{set_where};
ghost use Rattle.def_parts.specs.Sites.{directories_of};

use crate::mod_resolution::ModDir;
use def_ids::ModuleId;
use indexmap::IndexMap;
use std::alloc::{AllocError, Global};

/// The directory of each module whose items were walked.
pub struct ModDirs {
    dirs: IndexMap<ModuleId, ModDir>,
}

impl Drop for ModDirs {
    fn drop(self) {
        let ModDirs { dirs: _ } = self;
    }
}

impl ModDirs {
    /// No directory.
    pub fn new(alloc: Global) -> ModDirs
        ensures { directories_of result ≡ (λ at. None) }
    {
        ModDirs {
            dirs: IndexMap::new(alloc),
        }
    }

    /// The directory that is stored for a module, if one is.
    pub fn get(&self, module_id: ModuleId) -> Option<&ModDir>
        ensures { option_map (λ dir. dir.now) result ≡ directories_of self.now module_id }
    {
        self.dirs.get(&module_id)
    }

    /// Stores the directory of a module, in the place of an earlier one.
    pub fn insert(&mut self, module_id: ModuleId, dir: ModDir) -> Result<(), AllocError>
        ensures { OnOk result (directories_of self.new
            ≡ set_where (is_same_module module_id) (Some dir) (directories_of self.old)) }
    {
        self.dirs.insert(module_id, dir)?;
        Ok(())
    }
}
