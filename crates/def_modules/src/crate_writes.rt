//! What the collector writes of a crate, and beside the modules into a map, where the write touches
//! a map or a list. Where memory is refused nothing but safety is promised.
ghost use Rattle.std.specs.Prelude.{◌≡◌, length, map, OnOk};
ghost use Rattle.def_modules.specs.Maps.{crate_state, map_state, helper_state, with_feature, with_tool, with_exported, paired, with_macro_at, with_macro_use, with_helper, given_by, renamed_in, with_renamed_helpers};
ghost use Rattle.def_modules.specs.Updates.{update_at};

use crate::def_map_crate_data::DefMapCrateData;
use crate::keyed_lists::{no_items, push_under};
use crate::map::{DeriveHelper, HelpersRange, MapData};
use crate::module_data::Position;
use def_ids::{BuiltinDeriveImplId, FunctionId, MacroId, ProcMacroId};
use either::Either;
use std::alloc::{AllocError, Global};
use std::mem;
use tree_ids::{Name, Seq};

impl DefMapCrateData {
    /// Enables a feature.
    pub fn enable_feature(&mut self, name: Name) -> Result<(), AllocError>
        ensures { OnOk result (crate_state self.new ≡ with_feature (crate_state self.old) name) }
    {
        self.unstable_features.names.insert(name)?;
        Ok(())
    }

    /// Registers a tool, behind the others.
    pub fn register_tool(&mut self, tool: Name) -> Result<(), AllocError>
        ensures { OnOk result (crate_state self.new ≡ with_tool (crate_state self.old) tool) }
    {
        self.registered_tools.push(tool)?;
        Ok(())
    }

    /// Shows the helper attributes of a derive macro to other crates.
    pub fn export_derive(&mut self, id: MacroId, helpers: Seq<Name>) -> Result<(), AllocError>
        ensures { OnOk result (crate_state self.new ≡ with_exported (crate_state self.old) id helpers) }
    {
        self.exported_derives.insert(id, helpers)?;
        Ok(())
    }

    /// Leads a procedural macro and its function to each other.
    pub fn pair_proc_macro(
        &mut self,
        function: FunctionId,
        id: ProcMacroId,
    ) -> Result<(), AllocError>
        ensures { OnOk result (crate_state self.new ≡ paired (crate_state self.old) function id) }
    {
        self.fn_proc_macro_mapping.insert(function, id)?;
        self.fn_proc_macro_mapping_back.insert(id, function)?;
        Ok(())
    }
}

/// Puts a builtin impl in the place of what gave them, in these helpers.
fn rename_within(
    helpers: &mut Seq<DeriveHelper>,
    alloc: Global,
    range: HelpersRange,
    id: BuiltinDeriveImplId,
)
    ensures { map helper_state helpers.new ≡ renamed_in range id (map helper_state helpers.old) }
{
    let mut items = mem::replace(helpers, no_items(alloc)).into_vec();
    'places: for place in range.start..range.end {
        rename_at(&mut items, place, id);
    }
    *helpers = Seq::from_vec(items);
}

/// Puts a builtin impl in the place of what gave the helper at this place, if it is there.
fn rename_at(helpers: &mut Vec<DeriveHelper>, place: usize, id: BuiltinDeriveImplId)
    ensures { map helper_state helpers.new.items ≡ update_at (map helper_state helpers.old.items) place (given_by id) }
{
    if let Some(helper) = helpers.get_mut(place) {
        helper.by = Either::Right(id);
    }
}

impl MapData {
    /// Leads a position to its macro.
    pub fn set_macro_at(&mut self, position: Position, id: MacroId) -> Result<(), AllocError>
        ensures { OnOk result (map_state self.new ≡ with_macro_at (map_state self.old) position id) }
    {
        self.macro_by_position.insert(position, id)?;
        Ok(())
    }

    /// Names a macro that an extern crate brought, in the place of an earlier one of the name.
    pub fn add_macro_use(&mut self, name: Name, id: MacroId) -> Result<(), AllocError>
        ensures { OnOk result (map_state self.new ≡ with_macro_use (map_state self.old) name id) }
    {
        self.macro_use_prelude.insert(name, id)?;
        Ok(())
    }

    /// Adds a helper attribute that is read at a position, behind the others.
    pub fn add_derive_helper(
        &mut self,
        position: Position,
        helper: DeriveHelper,
    ) -> Result<(), AllocError>
        ensures { OnOk result (map_state self.new ≡ with_helper (map_state self.old) position (helper_state helper)) }
    {
        push_under(&mut self.derive_helpers, position, helper)?;
        Ok(())
    }

    /// How many helper attributes are read at a position.
    pub fn derive_helper_count(&self, position: Position) -> usize
        ensures { result ≡ length ((map_state self.now).helpers position) }
    {
        match self.derive_helpers.get(&position) {
            Some(helpers) => helpers.as_slice().len(),
            None => 0,
        }
    }

    /// Lets those of a position's helpers that a derive added name a builtin impl, as rust-analyzer
    /// does with the derive helpers in `consider_deferred_derives`.
    pub fn rename_derive_helpers(
        &mut self,
        position: Position,
        range: HelpersRange,
        id: BuiltinDeriveImplId,
    )
        ensures { map_state self.new ≡ with_renamed_helpers (map_state self.old) position range id }
    {
        let alloc = *self.derive_helpers.allocator();
        if let Some(helpers) = self.derive_helpers.get_mut(&position) {
            rename_within(helpers, alloc, range, id);
        }
    }
}
