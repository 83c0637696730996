//! Textual macros that one module takes over of another.
ghost use Rattle.std.specs.Prelude.{◌≡◌, ◌++◌, reverse, OnOk, IfOk};
ghost use Rattle.def_modules.specs.Maps.{map_state, with_module, textual_at};
ghost use Rattle.def_modules.specs.ScopeMaps.{named_first, defined_all, AreLastOf};
ghost use Rattle.def_modules.specs.Scopes.{module_state, with_textual_of, brought};

use crate::map::MapData;
use crate::module_data::ModuleData;
use def_ids::MacroId;
use std::alloc::{AllocError, Global};
use tree_ids::{Name, Seq};

/// Adds a name with its last macro, if it has one.
fn push_last(
    last: &mut Vec<(Name, MacroId)>,
    name: Name,
    macros: &Seq<MacroId>,
) -> Result<(), AllocError>
    ensures { OnOk result (last.new.items ≡ last.old.items ++ named_first name (reverse macros.now)) }
{
    match macros.as_slice().last() {
        Some(macro_id) => {
            last.push((name, *macro_id))?;
            Ok(())
        }
        None => Ok(()),
    }
}

impl ModuleData {
    /// The last textual macro of each name.
    fn last_legacy_macros(&self, alloc: Global) -> Result<Vec<(Name, MacroId)>, AllocError>
        ensures { IfOk result (λ last. AreLastOf (module_state self.now).textual last.items) }
    {
        let macros = self.scope.legacy_macros.as_ref();
        let mut last = Vec::new(alloc);
        for i in 0..macros.len() {
            if let Some((name, of_name)) = macros.get_index(i) {
                push_last(&mut last, *name, of_name)?;
            }
        }
        Ok(last)
    }

    /// Defines textual macros in turn.
    fn define_legacy_macros(&mut self, macros: &[(Name, MacroId)]) -> Result<(), AllocError>
        ensures { OnOk result (module_state self.new
            ≡ with_textual_of (defined_all (module_state self.old).textual macros.now) (module_state self.old)) }
    {
        for pair in macros {
            self.define_legacy_macro(pair.0, pair.1)?;
        }
        Ok(())
    }
}

impl MapData {
    /// The last textual macro of each name of a module.
    fn last_legacy_macros(
        &self,
        alloc: Global,
        module: usize,
    ) -> Result<Vec<(Name, MacroId)>, AllocError>
        ensures { IfOk result (λ last. AreLastOf (textual_at (map_state self.now) «module») last.items) }
    {
        match self.modules.as_slice().get(module) {
            Some(found) => found.last_legacy_macros(alloc),
            None => Ok(Vec::new(alloc)),
        }
    }

    /// Defines the last textual macro of each name of one module in another.
    pub fn import_all_legacy_macros(
        &mut self,
        alloc: Global,
        from: usize,
        into: usize,
    ) -> Result<(), AllocError>
        ensures { OnOk result (map_state self.new
            ≡ with_module (map_state self.old) into (brought (textual_at (map_state self.old) from))) }
    {
        let last = self.last_legacy_macros(alloc, from)?;
        match self.modules.get_mut(into) {
            Some(target) => target.define_legacy_macros(last.as_slice()),
            None => Ok(()),
        }
    }
}
