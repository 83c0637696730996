//! What a crate's root file and its data say of it.
ghost use Rattle.std.specs.Prelude.{◌≡◌, OnOk};
ghost use Rattle.def_modules.specs.Locals.{local_view};
ghost use Rattle.def_modules.specs.Maps.{crate_state};
ghost use Rattle.def_rules.specs.Crates as crates;

use crate::crate_attrs::set_attrs;
use crate::crate_deps::{add_all, dependencies};
use def_map::{DefMapCrateData, LocalDefMap, SourceDatabase};
use item_tree::{Attr, Crate};
use std::alloc::AllocError;

/// Sets what the attributes of the root file say of the crate, and names then the crates that it
/// depends on, since `no_core` and `no_std` leave some out. On `Err` nothing but safety is promised.
pub fn read_root_file<D: SourceDatabase>(
    krate: &mut DefMapCrateData,
    local: &mut LocalDefMap,
    db: &D,
    id: Crate,
    attrs: &[Attr],
) -> Result<(), AllocError>
    ensures flags { OnOk result (crate_state krate.new ≡ crates.after_attrs attrs.now (crate_state krate.old)) }
    ensures names { OnOk result (let oracle = D.oracle db.now in
        local_view local.new ≡ crates.after_deps oracle (crates.after_attrs attrs.now (crate_state krate.old))
        (crates.deps_of oracle id) (local_view local.old)) }
{
    set_attrs(krate, attrs)?;
    add_all(db, krate, local, dependencies(db, id))?;
    Ok(())
}
