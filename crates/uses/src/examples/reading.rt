//! Reading what was collected: the scope of a module, what a path means, which macro calls are recorded,
//! and what is left over.

use crate::examples::items::path_of;
use hir_def::{
    BuiltinShadowMode, Collected, Def, DeriveKey, DerivePlace, Either, FileAstId, InFile, Interner,
    Invocation, MacroCallId, ModuleId, Name, SourceDatabase,
};
use std::alloc::{AllocError, Global};

/// The type or module of a name in the scope of a module, by its index. The root has the index 0.
pub fn type_in_scope(collected: &Collected, module: usize, name: Name) -> Option<Def> {
    let scope = collected.def_map.scope(module)?;
    let binding = scope.get(name).types?;
    Some(binding.def)
}

/// The type or module that a path means, seen from the root.
pub fn type_at_path<D: SourceDatabase>(
    alloc: Global,
    session: &mut Interner,
    db: &D,
    collected: &Collected,
    segments: &[&str],
) -> Result<Option<Def>, AllocError> {
    let path = path_of(alloc, session, segments)?;
    let root = ModuleId {
        map: collected.def_map.id(),
        index: 0,
    };
    let (meaning, _) = collected.def_map.resolve_path(
        &collected.local_def_map,
        db,
        session,
        root,
        &path,
        BuiltinShadowMode::Module,
        None,
    );
    match meaning.types {
        Some(binding) => Ok(Some(binding.def)),
        None => Ok(None),
    }
}

/// Whether a call is recorded in the root, with the item that it stands at: the call of an item, or
/// that of an attribute on it.
pub fn is_recorded(collected: &Collected, position: InFile<FileAstId>, call: MacroCallId) -> bool {
    let Some(scope) = collected.def_map.scope(0) else {
        return false;
    };
    match scope.invocations() {
        Some(calls) => calls.contains(&Invocation { position, call }),
        None => false,
    }
}

/// The call of the derive at a place of an attribute's list, if it gave one in the root.
pub fn derive_at(collected: &Collected, place: DerivePlace) -> Option<MacroCallId> {
    let derives = collected.def_map.scope(0)?.derives()?;
    let records = derives.get(&DeriveKey {
        position: place.position,
        attr: place.attr_id,
    })?;
    match records.first.calls.get(place.pos)? {
        Some(Either::Left(call)) => Some(*call),
        _ => None,
    }
}

/// The last segment of the first import that did not resolve.
pub fn first_left_over<'a>(session: &'a Interner, collected: &Collected) -> Option<&'a str> {
    let import = collected.outcome.imports.first()?;
    let name = import.path.segments.as_slice().last()?;
    session.text(*name)
}
