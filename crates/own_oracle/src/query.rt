//! The crate is collected, and its trait's items are asked for.

use crate::one_trait::OneTrait;
use hir_def::{
    Collected, Def, DefMap, Edition, FunctionId, HirFileId, Interner, Name, TraitId, TraitItems,
    TreeId, collect_defs,
};
use std::alloc::{AllocError, Global};

/// The trait that a name means at the root of a map.
fn trait_named(map: &DefMap, name: Name) -> Option<TraitId> {
    match map.scope(0)?.get(name).types?.def {
        Def::Trait(id) => Some(id),
        _ => None,
    }
}

/// The functions of the trait: the one that is written, and the one that the macro gives. `None` where
/// one of them is not found.
pub fn methods(alloc: Global) -> Result<Option<(FunctionId, FunctionId)>, AllocError> {
    let mut session = Interner::new(alloc)?;
    let Ok(mut db) = OneTrait::new(alloc, &mut session)? else {
        return Ok(None);
    };
    let root = TreeId {
        file: HirFileId::File(OneTrait::FILE),
        block: None,
    };
    let seeded = DefMap::seed(alloc, OneTrait::CRATE, Edition::Edition2021, None)?;
    let collected = collect_defs(alloc, &db, &mut session, seeded, root, None)?;
    let Collected {
        def_map,
        local_def_map,
        outcome: _,
        diagnostics: _,
    } = collected;
    let Some(id) = trait_named(&def_map, session.intern_name("T")?) else {
        return Ok(None);
    };
    // From now on the oracle knows what was collected.
    db.maps = Some((def_map, local_def_map));
    let (items, _) = TraitItems::query_with_diagnostics(alloc, &db, &mut session, id)?;
    let written = items.method_by_name(&session.intern_name("a")?);
    let given = items.method_by_name(&session.intern_name("b")?);
    match (written, given) {
        (Some(written), Some(given)) => Ok(Some((written, given))),
        _ => Ok(None),
    }
}
