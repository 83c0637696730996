//! The order of the maps that are shown: that in which their keys were first given.

use def_ids::{Edition, MacroId, MacroRulesId};
use def_map::{
    DefMap, DeriveKey, DeriveMacroInvocation, DeriveRecords, MapData, ModuleData, ModuleOrigin,
    Position, Visibility,
};
use item_tree::{AttrId, Crate, FileAstId, FileId, HirFileId, MacroCallId, Name, Seq};
use std::alloc::{AllocError, Global};
use std::test::Fail;

/// A map of a crate with nothing in it.
fn empty_map(alloc: Global) -> Result<MapData, AllocError> {
    let (map, _) = DefMap::seed(alloc, Crate(0), Edition::Edition2021, None)?.into_parts();
    Ok(map)
}

fn macro_of(key: usize) -> MacroId {
    MacroId::MacroRules(MacroRulesId(key))
}

fn derive_of(key: usize) -> DeriveKey {
    DeriveKey {
        position: Position {
            file: HirFileId::File(FileId(0)),
            value: FileAstId(key),
        },
        attr: AttrId(0),
    }
}

/// Writes this key into each map that is shown by names: for a name its number as a child, a macro
/// of the name, and the name itself.
fn write_names(map: &mut MapData, key: usize) -> Result<(), AllocError> {
    map.set_child(0, Name(key), key)?;
    map.define_legacy_macro(0, Name(key), macro_of(key))?;
    map.krate.enable_feature(Name(key))?;
    map.add_macro_use(Name(key), macro_of(key))
}

/// Writes this key into each map that is shown of derives.
fn write_derives(alloc: Global, map: &mut MapData, key: usize) -> Result<(), AllocError> {
    let helpers = Seq::from_vec(Vec::new(alloc));
    map.krate.export_derive(macro_of(key), helpers)?;
    let derive = DeriveMacroInvocation {
        call: MacroCallId(key),
        calls: Vec::new(alloc),
    };
    let DeriveKey { position, attr } = derive_of(key);
    map.init_derive_attribute(0, position, attr, derive)
}

/// Writes keys, some of them again.
fn write(alloc: Global, map: &mut MapData) -> Result<(), AllocError> {
    for key in [50, 30, 40, 50, 30] {
        write_names(map, key)?;
        write_derives(alloc, map, key)?;
    }
    Ok(())
}

/// Whether there is an entry, and it has this key.
fn has_key<K: PartialEq + Copy, V>(entry: Option<(&K, &V)>, key: K) -> bool {
    match entry {
        Some((found, _)) => *found == key,
        None => false,
    }
}

/// The derive attribute of a module at a place.
fn derive_at(module: &ModuleData, place: usize) -> Option<(&DeriveKey, &DeriveRecords)> {
    let rare = module.scope.rare.as_ref()?;
    rare.derives.get_index(place)
}

/// Whether the maps of a module have this key at a place.
fn module_has_at(module: &ModuleData, place: usize, key: usize) -> bool {
    has_key(module.children.get_index(place), Name(key))
        && has_key(
            module.scope.legacy_macros.as_ref().get_index(place),
            Name(key),
        )
        && has_key(derive_at(module, place), derive_of(key))
}

/// Whether the maps of a crate have this key at a place.
fn crate_has_at(map: &MapData, place: usize, key: usize) -> bool {
    map.krate.unstable_features.names.get_index(place) == Some(&Name(key))
        && has_key(map.krate.exported_derives.get_index(place), macro_of(key))
        && has_key(map.macro_use_prelude.get_index(place), Name(key))
}

/// Whether all maps of a crate and of its root have these keys in this order.
fn all_have(map: &MapData, keys: &[usize]) -> bool {
    let Some(root) = map.modules.as_slice().first() else {
        return false;
    };
    for (place, key) in keys.iter().enumerate() {
        if !module_has_at(root, place, *key) || !crate_has_at(map, place, *key) {
            return false;
        }
    }
    true
}

#[test]
fn a_key_that_is_set_again_keeps_its_place(rt: HostRuntime) -> Result<(), Fail> {
    let mut map = empty_map(rt.alloc())?;
    write(rt.alloc(), &mut map)?;
    assert!(rt; all_have(&map, &[50, 30, 40]));
    Ok(())
}

/// Defines a macro of each of these names in a module.
fn define(map: &mut MapData, module: usize, names: &[usize]) -> Result<(), AllocError> {
    for name in names {
        map.define_legacy_macro(module, Name(*name), macro_of(*name))?;
    }
    Ok(())
}

/// Two modules, of which the second takes over the textual macros of the first.
fn with_imported_macros(alloc: Global, map: &mut MapData) -> Result<(), AllocError> {
    let module = ModuleData::new(alloc, None, ModuleOrigin::CrateRoot, Visibility::Public)?;
    map.push_module(0, module)?;
    define(map, 0, &[50, 30, 40, 50])?;
    define(map, 1, &[40])?;
    map.import_all_legacy_macros(alloc, 0, 1)
}

/// Whether the last module has these textual macros in this order.
fn last_has_macros(map: &MapData, keys: &[usize]) -> bool {
    let Some(module) = map.modules.as_slice().last() else {
        return false;
    };
    for (place, key) in keys.iter().enumerate() {
        if !has_key(
            module.scope.legacy_macros.as_ref().get_index(place),
            Name(*key),
        ) {
            return false;
        }
    }
    true
}

#[test]
fn macros_that_are_taken_over_stand_behind_those_of_the_module(
    rt: HostRuntime,
) -> Result<(), Fail> {
    let mut map = empty_map(rt.alloc())?;
    with_imported_macros(rt.alloc(), &mut map)?;
    assert!(rt; last_has_macros(&map, &[40, 50, 30]));
    Ok(())
}
