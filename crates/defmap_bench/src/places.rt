//! The places that a map binds, and what it costs to keep as many keys in a map of the kit.

use def_bindings::{Binding, Namespace, Visibility};
use def_ids::{Def, ModuleId, StructId};
use def_map::{DefMap, ItemScope, PerNs};
use indexmap::IndexMap;
use item_tree::{Crate, Name};
use std::alloc::{AllocError, Global};
use std::io;
use std::rt::Clock;
use std::time::{Duration, Instant};

/// A name in a namespace of a module, hashed as the map's table hashes it.
#[derive(Clone, Copy, PartialEq, Eq)]
#[derive_where(Hash)]
pub struct Place {
    pub at: ModuleId,
    pub name: Name,
    #[derive_where(skip(Hash))]
    pub ns: Namespace,
}

/// The map of the kit that stands for one look at each place.
type Plain = IndexMap<Place, Binding<Visibility>>;

/// Adds the namespaces in which a name is bound.
fn add_name(
    places: &mut Vec<Place>,
    at: ModuleId,
    name: Name,
    bound: &PerNs,
) -> Result<(), AllocError> {
    if bound.types.is_some() {
        let ns = Namespace::Types;
        places.push(Place { at, name, ns })?;
    }
    if bound.values.is_some() {
        let ns = Namespace::Values;
        places.push(Place { at, name, ns })?;
    }
    if bound.macros.is_some() {
        let ns = Namespace::Macros;
        places.push(Place { at, name, ns })?;
    }
    Ok(())
}

/// Adds what a module binds, in first-bound order, and then its textual macros.
fn add_scope(
    places: &mut Vec<Place>,
    at: ModuleId,
    scope: &ItemScope<'_>,
) -> Result<(), AllocError> {
    for (name, bound) in scope.resolutions() {
        add_name(places, at, name, &bound)?;
    }
    for name in scope.legacy_macros().keys() {
        let (name, ns) = (*name, Namespace::Macros);
        places.push(Place { at, name, ns })?;
    }
    Ok(())
}

/// All places that a map binds, those of textual macros among them, module by module.
pub fn places_of(alloc: Global, map: &DefMap) -> Result<Vec<Place>, AllocError> {
    let mut places = Vec::new(alloc);
    for index in 0..map.modules().len() {
        if let Some(scope) = map.scope(index) {
            let at = ModuleId {
                map: map.id(),
                index,
            };
            add_scope(&mut places, at, &scope)?;
        }
    }
    Ok(places)
}

/// What each place is bound to in the map of the kit.
const BOUND: Binding<Visibility> = Binding {
    def: Def::Struct(StructId(0)),
    vis: Visibility::Public,
    import: None,
};

fn insert_all(map: &mut Plain, places: &[Place]) -> Result<(), AllocError> {
    for place in places {
        map.insert(*place, BOUND)?;
    }
    Ok(())
}

fn are_found(map: &Plain, places: &[Place]) -> bool {
    for place in places {
        if !map.contains_key(place) {
            return false;
        }
    }
    true
}

/// How long it takes to insert all places in an empty map and to look up each.
fn time_in<C: Clock>(clock: &C, map: &mut Plain, places: &[Place]) -> io::Result<Duration> {
    let start = Instant::now(clock)?;
    insert_all(map, places)?;
    let all_found = are_found(map, places);
    let time = start.elapsed(clock)?;
    if all_found {
        Ok(time)
    } else {
        Err(io::Error::other("a place is not found"))
    }
}

/// How long all places take in the map of the kit.
pub fn time_places<C: Clock>(alloc: Global, clock: &C, places: &[Place]) -> io::Result<Duration> {
    let mut map = IndexMap::new(alloc);
    time_in(clock, &mut map, places)
}
