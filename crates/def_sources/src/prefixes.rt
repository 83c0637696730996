//! What the first segment of a longer path means. What follows asks for types alone, so each source
//! is asked for these.
ghost use Rattle.std.specs.Prelude.{◌≡◌, None, false};
ghost use Rattle.def_bindings.specs.declared.bindings.Namespace.TheVariants.{Types};
ghost use Rattle.def_sources.specs.Asking.{question_in, map_in};
ghost use Rattle.def_sources.specs.Items.{is_fitting};
ghost use Rattle.def_sources.specs.Sources.{first_found, prelude_source, outer_sources, plain_sources};
ghost use Rattle.def_sources.specs.Sources.{root_sources, absolute_sources, relative_sources};

use crate::path_database::PathDatabase;
use crate::per_ns::Item;
use crate::sources::{builtin_type, extern_type, is_2015, scope_type};
use crate::world::Asking;
use def_bindings::{BindingTable, Visibility};
use def_ids::ModuleId;
use item_tree::Name;

/// What the prelude module binds in types.
fn prelude_type<D: PathDatabase, T: BindingTable<Vis = Visibility>>(
    asking: &Asking<'_, D, T>,
    name: Name,
) -> Option<Item>
    ensures { let q = question_in D.oracle asking.now in
        let own = map_in T.content asking.now in
        result ≡ prelude_source q own name Types }
{
    match asking.world.map.prelude {
        Some(prelude) => scope_type(asking, prelude, name),
        None => None,
    }
}

/// What there is in types outside the scopes. A block's root leaves that to the maps around it.
fn outside_type<D: PathDatabase, T: BindingTable<Vis = Visibility>>(
    asking: &Asking<'_, D, T>,
    place: ModuleId,
    name: Name,
) -> Option<Item>
    ensures { let q = question_in D.oracle asking.now in
        let own = map_in T.content asking.now in
        let keep = is_fitting q.kind_of None in
        result ≡ first_found keep (outer_sources q own place) name Types }
{
    if place.is_block_root() {
        return None;
    }
    match extern_type(asking, name) {
        Some(item) => Some(item),
        None => prelude_type(asking, name),
    }
}

/// The first segment of a plain path.
fn plain_type<D: PathDatabase, T: BindingTable<Vis = Visibility>>(
    asking: &Asking<'_, D, T>,
    place: ModuleId,
    name: Name,
) -> Option<Item>
    ensures { let q = question_in D.oracle asking.now in
        let own = map_in T.content asking.now in
        let keep = is_fitting q.kind_of None in
        result ≡ first_found keep (plain_sources q own place false) name Types }
{
    if let Some(item) = scope_type(asking, place, name) {
        return Some(item);
    }
    match builtin_type(asking, name) {
        Some(item) => Some(item),
        None => outside_type(asking, place, name),
    }
}

/// The first segment of a path that begins at the crate's root.
fn root_type<D: PathDatabase, T: BindingTable<Vis = Visibility>>(
    asking: &Asking<'_, D, T>,
    name: Name,
) -> Option<Item>
    ensures { let q = question_in D.oracle asking.now in
        let own = map_in T.content asking.now in
        let keep = is_fitting q.kind_of None in
        result ≡ first_found keep (root_sources q own) name Types }
{
    let root = ModuleId::crate_root(asking.world.map.tree.map.krate);
    match scope_type(asking, root, name) {
        Some(item) => Some(item),
        None => extern_type(asking, name),
    }
}

/// The first segment of an absolute path.
pub fn absolute_type<D: PathDatabase, T: BindingTable<Vis = Visibility>>(
    asking: &Asking<'_, D, T>,
    name: Name,
) -> Option<Item>
    ensures { let q = question_in D.oracle asking.now in
        let own = map_in T.content asking.now in
        let keep = is_fitting q.kind_of None in
        result ≡ first_found keep (absolute_sources q own) name Types }
{
    if is_2015(asking.world.map.krate.edition) {
        root_type(asking, name)
    } else {
        extern_type(asking, name)
    }
}

/// The first segment of a plain path, which an import of edition 2015 looks up from the root.
pub fn relative_type<D: PathDatabase, T: BindingTable<Vis = Visibility>>(
    asking: &Asking<'_, D, T>,
    place: ModuleId,
    name: Name,
) -> Option<Item>
    ensures { let q = question_in D.oracle asking.now in
        let own = map_in T.content asking.now in
        let keep = is_fitting q.kind_of None in
        result ≡ first_found keep (relative_sources q own place false) name Types }
{
    if is_2015(asking.world.map.krate.edition) && asking.asked.mode.is_for_import() {
        root_type(asking, name)
    } else {
        plain_type(asking, place, name)
    }
}
