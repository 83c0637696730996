//! The impls of builtin derives that were deferred.
ghost use Rattle.std.specs.Prelude.{◌≡◌, List, OnOk};
ghost use Rattle.def_ids.specs.declared.ids.BuiltinDeriveImplId.{BuiltinDeriveImplId as Impl};
ghost use Rattle.def_interner.specs.Session.{AddsLocations, session_of};
ghost use Rattle.def_modules.specs.Maps.{map_state};
ghost use Rattle.def_rules.specs.Deferred.{AreGiven, AreImpls, giving_impls};
ghost use Rattle.def_rules.specs.Locations.{AddsImpls};

use def_ids::{Adt, BuiltinDeriveImplLoc, ModuleId};
use def_interner::{Interner, Location};
use def_map::{MapData, SourceDatabase};
use def_rules::DeferredDerive;
use either::Either;
use item_tree::{FileAstId, InFile};
use std::alloc::AllocError;

/// An item that gives impls: what it declares, the module that it stands in, and its position.
#[derive(Clone, Copy)]
pub struct DerivedItem {
    pub adt: Adt,
    pub module_id: ModuleId,
    pub position: InFile<FileAstId>,
}

/// Lets each of the derives that were deferred for an item give its impls. On `Err` nothing but safety
/// is promised. It is `consider_deferred_derives` of rust-analyzer's collector.
#[inline(never)]
pub fn give_impls<D: SourceDatabase>(
    def_map: &mut MapData,
    db: &D,
    session: &mut Interner,
    item: DerivedItem,
    derives: &[DeferredDerive],
) -> Result<(), AllocError>
    ensures given { OnOk result (
        AreGiven (D.oracle db.now) (session_of session.new) item.module_id item.position item.adt derives.now (map_state def_map.old) (map_state def_map.new)) }
    ensures own { OnOk result (AddsImpls item.adt (session_of session.old) (session_of session.new)) }
    ensures session { AddsLocations (session_of session.old) (session_of session.new) }
{
    'derives: for derive in derives {
        give_each(def_map, db, session, item, derive)?;
    }
    Ok(())
}

/// Lets a derive that was deferred give an impl for each of its traits. The last stands in the place of
/// the derive's call. On `Err` nothing but safety is promised.
fn give_each<D: SourceDatabase>(
    def_map: &mut MapData,
    db: &D,
    session: &mut Interner,
    item: DerivedItem,
    derive: &DeferredDerive,
) -> Result<(), AllocError>
    ensures given { OnOk result ((ids : List Impl)
        × AreImpls (session_of session.new) item.adt derive.now ((D.oracle db.now).derive_traits derive.now.derive) ids
        × (map_state def_map.new ≡ giving_impls (map_state def_map.old) item.module_id item.position derive.now ids)) }
    ensures own { OnOk result (AddsImpls item.adt (session_of session.old) (session_of session.new)) }
    ensures session { AddsLocations (session_of session.old) (session_of session.new) }
{
    let module = item.module_id.index;
    let mut last = None;
    'traits: for derived in db.derive_traits(derive.derive) {
        let id = BuiltinDeriveImplLoc {
            adt: item.adt,
            derived: *derived,
            attr: derive.attr_id,
            pos: derive.pos,
        }
        .intern(session)?;
        def_map.define_builtin_derive_impl(module, id)?;
        last = Some(id);
    }
    if let Some(id) = last {
        let made = Either::Right(id);
        def_map.set_derive_call(module, item.position, derive.attr_id, derive.pos, made);
        def_map.rename_derive_helpers(item.position, derive.helpers, id);
    }
    Ok(())
}
