//! Names of crates that paths may begin with.
ghost use Rattle.std.specs.Prelude.{◌≡◌, Some, OnOk};
ghost use Rattle.def_modules.specs.Locals.{local_view};
ghost use Rattle.def_items.specs.Parts.{with_local};
ghost use Rattle.def_rules.specs.Items as items;
ghost use Rattle.def_rules.specs.ExternCrates as crate_rules;
ghost use Rattle.def_rules.specs.State.{State};

use crate::item_order::is_crate_root;
use def_ids::{ExternCrateId, ModuleId};
use def_map::{ExternPreludeEntry, LocalDefMap};
use item_tree::Name;
use std::alloc::AllocError;

/// Lets paths begin with an extern crate, if it stands at a crate's root and has a name. On `Err`
/// nothing but safety is promised.
pub fn name_crate(
    local: &mut LocalDefMap,
    module_id: ModuleId,
    name: Option<Name>,
    root: ModuleId,
    id: ExternCrateId,
) -> Result<(), AllocError>
    ensures { OnOk result ((s : State) →
        with_local s (local_view local.new)
        ≡ crate_rules.naming_crate (items.is_crate_root module_id) name (record { root = root; by = Some id }) (with_local s (local_view local.old))) }
{
    if !is_crate_root(module_id) {
        return Ok(());
    }
    let Some(name) = name else {
        return Ok(());
    };
    local.insert(name, ExternPreludeEntry { root, by: Some(id) })?;
    Ok(())
}
