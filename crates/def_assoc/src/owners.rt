//! The items of a trait or an impl, read against the finished map of its module.
ghost use Rattle.std.specs.Prelude.{◌≡◌, IfOk};
ghost use Rattle.def_ids.specs.declared.ids.ItemContainerId.TheVariants as contained_in;
ghost use Rattle.def_interner.specs.Session.{ImplItem, TraitItem, session_of};
ghost use Rattle.def_oracle.specs.declared.source_database.AssocItemsOwner.TheVariants as owned_by;
ghost use Rattle.def_assoc.specs.Owners.{lists_in, owner_lists};
ghost use Rattle.def_assoc.specs.Shown.{found_of};

use crate::collector::{Found, ItemList, collect, items_of};
use def_ids::{ImplId, ModuleId, TraitId};
use def_interner::{Interner, LocationId};
use def_map::{AssocItemsOwner, SourceDatabase, finished_map};
use item_tree::HirFileId;
use std::alloc::{AllocError, Global};

/// Collects the items of a trait. One that the session does not know has none. On `Err` nothing but
/// safety is promised.
pub fn collect_trait<D: SourceDatabase>(
    alloc: Global,
    db: &D,
    session: &Interner,
    tr: TraitId,
) -> Result<Found, AllocError>
    ensures { let known = session_of session.now in
        IfOk result (λ found. found_of found ≡ owner_lists (D.oracle db.now) (D.states db.now) known (owned_by.Trait tr) (known.item TraitItem tr.0)) }
{
    let Some(loc) = tr.lookup(session) else {
        return Ok(Found::new(alloc));
    };
    let owner = AssocItemsOwner::Trait(tr);
    let found = collect_owner(alloc, db, session, loc.container, loc.position.file, owner)?;
    Ok(found)
}

/// Collects the items of an impl. One that the session does not know has none. On `Err` nothing but
/// safety is promised.
pub fn collect_impl<D: SourceDatabase>(
    alloc: Global,
    db: &D,
    session: &Interner,
    id: ImplId,
) -> Result<Found, AllocError>
    ensures { let known = session_of session.now in
        IfOk result (λ found. found_of found ≡ owner_lists (D.oracle db.now) (D.states db.now) known (owned_by.Impl id) (known.item ImplItem id.0)) }
{
    let Some(loc) = id.lookup(session) else {
        return Ok(Found::new(alloc));
    };
    let owner = AssocItemsOwner::Impl(id);
    let found = collect_owner(alloc, db, session, loc.container, loc.position.file, owner)?;
    Ok(found)
}

/// Collects the items of a trait or an impl that stands in a module and in a file. Where the map of
/// the module or the names of its crate are not there, it has none. On `Err` nothing but safety is
/// promised.
fn collect_owner<D: SourceDatabase>(
    alloc: Global,
    db: &D,
    session: &Interner,
    module_id: ModuleId,
    file: HirFileId,
    owner: AssocItemsOwner,
) -> Result<Found, AllocError>
    ensures { let known = session_of session.now in
        IfOk result (λ found. found_of found ≡ lists_in (D.oracle db.now) (D.states db.now) known file owner (contained_in.Module module_id)) }
{
    let Some(def_map) = finished_map(db, module_id.map) else {
        return Ok(Found::new(alloc));
    };
    let Some(local_def_map) = db.local_def_map(module_id.map.krate) else {
        return Ok(Found::new(alloc));
    };
    let world = def_map.world(local_def_map, db, session);
    let items = ItemList {
        file,
        depth: db.expansion_depth(file),
        rest: items_of(db, owner),
    };
    let found = collect(alloc, &world, module_id, items)?;
    Ok(found)
}
