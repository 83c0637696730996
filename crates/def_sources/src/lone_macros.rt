//! What a plain path of one segment means in macros. Who asks for a macro wants nothing else, so each
//! source is asked for macros alone, and one that never has any is not asked.
ghost use Rattle.std.specs.Prelude.{◌≡◌, true};
ghost use Rattle.def_bindings.specs.declared.bindings.Namespace.TheVariants.{Macros};
ghost use Rattle.def_sources.specs.Asking.{question_in, map_in};
ghost use Rattle.def_sources.specs.Items.{is_fitting};
ghost use Rattle.def_sources.specs.PerNs.{kept};
ghost use Rattle.def_sources.specs.Sources.{first_found, scope_source, textual_source, macro_use_source};
ghost use Rattle.def_sources.specs.Sources.{prelude_source, scope_and_builtin, outer_sources};
ghost use Rattle.def_sources.specs.Sources.{plain_sources, root_sources, relative_sources};

use crate::path_database::PathDatabase;
use crate::per_ns::{Item, fitting, public_item};
use crate::sources::{Segment, is_2015, textual_macro};
use crate::world::Asking;
use def_bindings::{BindingTable, Namespace, Visibility};
use def_ids::{Def, ModuleId};
use item_tree::Name;

/// What a module's scope binds in macros, also in another map.
pub fn scope_macro<D: PathDatabase, T: BindingTable<Vis = Visibility>>(
    asking: &Asking<'_, D, T>,
    place: ModuleId,
    name: Name,
) -> Option<Item>
    ensures { let q = question_in D.oracle asking.now in
        let own = map_in T.content asking.now in
        result ≡ scope_source q own place name Macros }
{
    if place.map == asking.world.map.tree.map {
        return asking.world.table.binding(place, name, Namespace::Macros);
    }
    match asking.world.db.finished_map(place.map) {
        Some((_, table)) => table.binding(place, name, Namespace::Macros),
        None => None,
    }
}

/// The last textual macro of the name, if it fits.
fn textual<D: PathDatabase, T: BindingTable<Vis = Visibility>>(
    asking: &Asking<'_, D, T>,
    segment: Segment,
) -> Option<Item>
    ensures { let q = question_in D.oracle asking.now in
        let own = map_in T.content asking.now in
        let keep = is_fitting q.kind_of segment.sub in
        result ≡ kept keep (textual_source q own segment.place segment.name Macros) }
{
    let id = textual_macro(asking, segment.place, segment.name)?;
    fitting(
        Some(public_item(Def::Macro(id))),
        asking.world.session,
        segment.sub,
    )
}

/// What the scope binds in macros, if it fits. The builtin types have none, wherever they stand.
fn inside<D: PathDatabase, T: BindingTable<Vis = Visibility>>(
    asking: &Asking<'_, D, T>,
    segment: Segment,
) -> Option<Item>
    ensures { let q = question_in D.oracle asking.now in
        let own = map_in T.content asking.now in
        let keep = is_fitting q.kind_of segment.sub in
        (is_builtin_first : _)
        → result ≡ first_found keep (scope_and_builtin is_builtin_first q own segment.place) segment.name Macros }
{
    let bound = scope_macro(asking, segment.place, segment.name);
    fitting(bound, asking.world.session, segment.sub)
}

/// The macro of an extern crate that the name brought, if it fits.
fn brought<D: PathDatabase, T: BindingTable<Vis = Visibility>>(
    asking: &Asking<'_, D, T>,
    segment: Segment,
) -> Option<Item>
    ensures { let q = question_in D.oracle asking.now in
        let own = map_in T.content asking.now in
        let keep = is_fitting q.kind_of segment.sub in
        result ≡ kept keep (macro_use_source own segment.name Macros) }
{
    let id = asking.world.map.macro_use(segment.name)?;
    fitting(
        Some(public_item(Def::Macro(id))),
        asking.world.session,
        segment.sub,
    )
}

/// What the prelude module binds in macros, if it fits.
fn in_prelude<D: PathDatabase, T: BindingTable<Vis = Visibility>>(
    asking: &Asking<'_, D, T>,
    segment: Segment,
) -> Option<Item>
    ensures { let q = question_in D.oracle asking.now in
        let own = map_in T.content asking.now in
        let keep = is_fitting q.kind_of segment.sub in
        result ≡ kept keep (prelude_source q own segment.name Macros) }
{
    let prelude = asking.world.map.prelude?;
    let bound = scope_macro(asking, prelude, segment.name);
    fitting(bound, asking.world.session, segment.sub)
}

/// What there is in macros outside the scopes. A block's root leaves the prelude to the maps around it.
fn outside<D: PathDatabase, T: BindingTable<Vis = Visibility>>(
    asking: &Asking<'_, D, T>,
    segment: Segment,
) -> Option<Item>
    ensures { let q = question_in D.oracle asking.now in
        let own = map_in T.content asking.now in
        let keep = is_fitting q.kind_of segment.sub in
        result ≡ first_found keep (outer_sources q own segment.place) segment.name Macros }
{
    let found = brought(asking, segment);
    if found.is_some() || segment.place.is_block_root() {
        return found;
    }
    in_prelude(asking, segment)
}

/// A plain path of one segment.
fn plain_macro<D: PathDatabase, T: BindingTable<Vis = Visibility>>(
    asking: &Asking<'_, D, T>,
    segment: Segment,
) -> Option<Item>
    ensures { let q = question_in D.oracle asking.now in
        let own = map_in T.content asking.now in
        let keep = is_fitting q.kind_of segment.sub in
        result ≡ first_found keep (plain_sources q own segment.place true) segment.name Macros }
{
    let textual = textual(asking, segment);
    if textual.is_some() {
        return textual;
    }
    let bound = inside(asking, segment);
    if bound.is_some() {
        return bound;
    }
    outside(asking, segment)
}

/// A path of one segment that begins at the crate's root.
fn root_macro<D: PathDatabase, T: BindingTable<Vis = Visibility>>(
    asking: &Asking<'_, D, T>,
    segment: Segment,
) -> Option<Item>
    ensures { let q = question_in D.oracle asking.now in
        let own = map_in T.content asking.now in
        let keep = is_fitting q.kind_of segment.sub in
        result ≡ first_found keep (root_sources q own) segment.name Macros }
{
    let root = ModuleId::crate_root(asking.world.map.tree.map.krate);
    let bound = scope_macro(asking, root, segment.name);
    fitting(bound, asking.world.session, segment.sub)
}

/// What a plain path of one segment means in macros, as `relative` has it. An import of edition 2015
/// looks it up from the root.
pub fn relative_macro<D: PathDatabase, T: BindingTable<Vis = Visibility>>(
    asking: &Asking<'_, D, T>,
    segment: Segment,
) -> Option<Item>
    ensures { let q = question_in D.oracle asking.now in
        let own = map_in T.content asking.now in
        let keep = is_fitting q.kind_of segment.sub in
        result ≡ first_found keep (relative_sources q own segment.place true) segment.name Macros }
{
    if is_2015(asking.world.map.krate.edition) && asking.asked.mode.is_for_import() {
        root_macro(asking, segment)
    } else {
        plain_macro(asking, segment)
    }
}
