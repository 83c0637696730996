//! Where names come from, and what a path of one segment means. A source is asked only for what
//! those before it have not.
ghost use Rattle.std.specs.Prelude.{◌≡◌, ◌++◌, IfSome, option_and_then, true};
ghost use Rattle.def_bindings.specs.declared.bindings.Namespace.TheVariants.{Types};
ghost use Rattle.def_bindings.specs.NameBindings.{module_bound};
ghost use Rattle.def_sources.specs.Items.{is_fitting, is_2015 as is_edition_2015};
ghost use Rattle.def_sources.specs.Asking.{question_in, map_in};
ghost use Rattle.def_sources.specs.PerNs.{per_namespace, kept_in};
ghost use Rattle.def_sources.specs.Sources.{map_of_id};
ghost use Rattle.def_sources.specs.Sources.{found_in, with_source};
ghost use Rattle.def_sources.specs.Sources.{scope_source, textual_source, builtin_source, extern_source};
ghost use Rattle.def_sources.specs.Sources.{macro_use_source, prelude_source, scope_and_builtin, outer_sources};
ghost use Rattle.def_sources.specs.Sources.{plain_sources, root_sources, absolute_sources, relative_sources};

use crate::path_database::PathDatabase;
use crate::per_ns::{Item, MacroSubNs, PerNs, public_item};
use crate::world::Asking;
use def_bindings::{Binding, BindingTable, ImportOrExternCrate, Namespace, Visibility};
use def_ids::{Def, Edition, MacroId, ModuleId};
use item_tree::Name;

/// A name that is looked up: where, and which macros it may mean.
#[derive(Clone, Copy)]
pub struct Segment {
    pub place: ModuleId,
    pub name: Name,
    pub sub: Option<MacroSubNs>,
}

/// What a table binds in each namespace.
pub fn bound<T: BindingTable<Vis = Visibility>>(table: &T, place: ModuleId, name: Name) -> PerNs
    ensures { result ≡ per_namespace ((T.content table.now).binding place name) }
{
    let found = table.bindings(place, name);
    PerNs {
        types: found.types,
        values: found.values,
        macros: found.macros,
    }
}

/// Whether an edition is that of 2015.
pub fn is_2015(edition: Edition) -> bool
    ensures { result ≡ is_edition_2015 edition }
{
    match edition {
        Edition::Edition2015 => true,
        Edition::Edition2018 | Edition::Edition2021 | Edition::Edition2024 => false,
    }
}

/// What a module's scope binds, also in another map. A map that there is not binds nothing.
pub fn scope<D: PathDatabase, T: BindingTable<Vis = Visibility>>(
    asking: &Asking<'_, D, T>,
    place: ModuleId,
    name: Name,
) -> PerNs
    ensures { let q = question_in D.oracle asking.now in
        let own = map_in T.content asking.now in
        result ≡ per_namespace (scope_source q own place name) }
{
    if place.map == asking.world.map.tree.map {
        bound(asking.world.table, place, name)
    } else {
        match asking.world.db.finished_map(place.map) {
            Some((_, table)) => bound(table, place, name),
            None => PerNs::none(),
        }
    }
}

/// What a module's scope binds in types, also in another map.
pub fn scope_type<D: PathDatabase, T: BindingTable<Vis = Visibility>>(
    asking: &Asking<'_, D, T>,
    place: ModuleId,
    name: Name,
) -> Option<Item>
    ensures { let q = question_in D.oracle asking.now in
        let own = map_in T.content asking.now in
        result ≡ scope_source q own place name Types }
{
    if place.map == asking.world.map.tree.map {
        return asking.world.table.binding(place, name, Namespace::Types);
    }
    match asking.world.db.finished_map(place.map) {
        Some((_, table)) => table.binding(place, name, Namespace::Types),
        None => None,
    }
}

/// The module that a module's scope binds in types, also in another map.
pub fn scope_module<D: PathDatabase, T: BindingTable<Vis = Visibility>>(
    asking: &Asking<'_, D, T>,
    place: ModuleId,
    name: Name,
) -> Option<ModuleId>
    ensures { let q = question_in D.oracle asking.now in
        let own = map_in T.content asking.now in
        result ≡ module_bound (scope_source q own place name Types) }
{
    if place.map == asking.world.map.tree.map {
        return asking.world.table.module_at(place, name);
    }
    match asking.world.db.finished_map(place.map) {
        Some((_, table)) => table.module_at(place, name),
        None => None,
    }
}

/// A builtin type. Blocks leave those to the maps around them.
pub fn builtin_type<D: PathDatabase, T: BindingTable<Vis = Visibility>>(
    asking: &Asking<'_, D, T>,
    name: Name,
) -> Option<Item>
    ensures { let q = question_in D.oracle asking.now in
        let own = map_in T.content asking.now in
        result ≡ builtin_source q own name Types }
{
    if asking.world.map.tree.map.block.is_some() {
        return None;
    }
    match asking.world.db.builtin_type(name) {
        Some(number) => Some(public_item(Def::Builtin(number))),
        None => None,
    }
}

/// The root of another crate.
pub fn extern_type<D: PathDatabase, T>(asking: &Asking<'_, D, T>, name: Name) -> Option<Item>
    ensures { let q = question_in D.oracle asking.now in
        result ≡ extern_source q name Types }
{
    match asking.world.local.extern_entry(name) {
        Some(entry) => Some(Binding {
            def: Def::Module(entry.root),
            vis: Visibility::Public,
            import: entry.by.map(ImportOrExternCrate::ExternCrate),
        }),
        None => None,
    }
}

/// A module's last textual macro of a name, also in another map.
pub(crate) fn textual_macro<D: PathDatabase, T: BindingTable<Vis = Visibility>>(
    asking: &Asking<'_, D, T>,
    place: ModuleId,
    name: Name,
) -> Option<MacroId>
    ensures { let q = question_in D.oracle asking.now in
        let own = map_in T.content asking.now in
        result ≡ option_and_then (λ there. there.facts.textual_macro place name) (map_of_id q.oracle own place.map) }
{
    if place.map == asking.world.map.tree.map {
        return asking.world.map.textual_macro(place, name);
    }
    match asking.world.db.finished_map(place.map) {
        Some((data, _)) => data.textual_macro(place, name),
        None => None,
    }
}

/// The last textual macro of the name, if it fits.
fn textual<D: PathDatabase, T: BindingTable<Vis = Visibility>>(
    asking: &Asking<'_, D, T>,
    segment: Segment,
) -> PerNs
    ensures { let q = question_in D.oracle asking.now in
        let own = map_in T.content asking.now in
        let keep = is_fitting q.kind_of segment.sub in
        result ≡ kept_in keep (per_namespace (textual_source q own segment.place segment.name)) }
{
    match textual_macro(asking, segment.place, segment.name) {
        Some(id) => PerNs::of_macro(public_item(Def::Macro(id))).fitting(
            asking.world.session,
            segment.sub,
        ),
        None => PerNs::none(),
    }
}

/// Adds a builtin type. Blocks leave those to the maps around them.
fn or_builtin<D: PathDatabase, T: BindingTable<Vis = Visibility>>(
    asking: &Asking<'_, D, T>,
    found: PerNs,
    segment: Segment,
) -> PerNs
    ensures { let q = question_in D.oracle asking.now in
        let own = map_in T.content asking.now in
        let keep = is_fitting q.kind_of segment.sub in
        result ≡ with_source keep found (builtin_source q own) segment.name }
{
    if found.types.is_some() {
        return found;
    }
    match builtin_type(asking, segment.name) {
        // It is no macro, and fits.
        Some(item) => found.or(PerNs::of_type(item).fitting(asking.world.session, segment.sub)),
        None => found,
    }
}

/// Adds the root of another crate.
fn or_extern<D: PathDatabase, T>(asking: &Asking<'_, D, T>, found: PerNs, segment: Segment) -> PerNs
    ensures { let q = question_in D.oracle asking.now in
        let keep = is_fitting q.kind_of segment.sub in
        result ≡ with_source keep found (extern_source q) segment.name }
{
    if found.types.is_some() {
        return found;
    }
    match extern_type(asking, segment.name) {
        // It is no macro, and fits.
        Some(item) => found.or(PerNs::of_type(item).fitting(asking.world.session, segment.sub)),
        None => found,
    }
}

/// Adds a macro that an extern crate brought.
fn or_macro_use<D: PathDatabase, T: BindingTable<Vis = Visibility>>(
    asking: &Asking<'_, D, T>,
    found: PerNs,
    segment: Segment,
) -> PerNs
    ensures { let q = question_in D.oracle asking.now in
        let own = map_in T.content asking.now in
        let keep = is_fitting q.kind_of segment.sub in
        result ≡ with_source keep found (macro_use_source own) segment.name }
{
    if found.macros.is_some() {
        return found;
    }
    match asking.world.map.macro_use(segment.name) {
        Some(id) => {
            let brought = PerNs::of_macro(public_item(Def::Macro(id)));
            found.or(brought.fitting(asking.world.session, segment.sub))
        }
        None => found,
    }
}

/// Adds what the prelude module binds.
fn or_prelude<D: PathDatabase, T: BindingTable<Vis = Visibility>>(
    asking: &Asking<'_, D, T>,
    found: PerNs,
    segment: Segment,
) -> PerNs
    ensures { let q = question_in D.oracle asking.now in
        let own = map_in T.content asking.now in
        let keep = is_fitting q.kind_of segment.sub in
        result ≡ with_source keep found (prelude_source q own) segment.name }
{
    if found.is_full() {
        return found;
    }
    match asking.world.map.prelude {
        Some(prelude) => {
            let bound = scope(asking, prelude, segment.name);
            found.or(bound.fitting(asking.world.session, segment.sub))
        }
        None => found,
    }
}

/// Adds what the scope and the builtin types have; a builtin type may go before a module.
fn or_inside<D: PathDatabase, T: BindingTable<Vis = Visibility>>(
    asking: &Asking<'_, D, T>,
    found: PerNs,
    segment: Segment,
    is_builtin_first: bool,
) -> PerNs
    ensures { let q = question_in D.oracle asking.now in
        let own = map_in T.content asking.now in
        let keep = is_fitting q.kind_of segment.sub in
        (before : _) → found ≡ found_in keep before segment.name
        → result ≡ found_in keep (before ++ scope_and_builtin is_builtin_first q own segment.place) segment.name }
{
    let bound = scope(asking, segment.place, segment.name);
    let fitting = bound.fitting(asking.world.session, segment.sub);
    if is_builtin_first {
        let no_module = bound
            .without_modules()
            .fitting(asking.world.session, segment.sub);
        or_builtin(asking, found.or(no_module), segment).or(fitting)
    } else {
        or_builtin(asking, found.or(fitting), segment)
    }
}

/// Adds what there is outside the scopes. A block's root leaves most of it to the maps around it.
fn or_outside<D: PathDatabase, T: BindingTable<Vis = Visibility>>(
    asking: &Asking<'_, D, T>,
    found: PerNs,
    segment: Segment,
) -> PerNs
    ensures { let q = question_in D.oracle asking.now in
        let own = map_in T.content asking.now in
        let keep = is_fitting q.kind_of segment.sub in
        (before : _) → found ≡ found_in keep before segment.name
        → result ≡ found_in keep (before ++ outer_sources q own segment.place) segment.name }
{
    if segment.place.is_block_root() {
        return or_macro_use(asking, found, segment);
    }
    let found = or_macro_use(asking, or_extern(asking, found, segment), segment);
    or_prelude(asking, found, segment)
}

/// A plain path of one segment.
fn plain<D: PathDatabase, T: BindingTable<Vis = Visibility>>(
    asking: &Asking<'_, D, T>,
    segment: Segment,
) -> PerNs
    ensures { let q = question_in D.oracle asking.now in
        let own = map_in T.content asking.now in
        let keep = is_fitting q.kind_of segment.sub in
        result ≡ found_in keep (plain_sources q own segment.place true) segment.name }
{
    let is_builtin_first = asking.asked.is_builtin_first();
    let textual = textual(asking, segment);
    let inside = or_inside(asking, textual, segment, is_builtin_first);
    or_outside(asking, inside, segment)
}

/// A path of one segment that begins at the crate's root.
fn from_root<D: PathDatabase, T: BindingTable<Vis = Visibility>>(
    asking: &Asking<'_, D, T>,
    segment: Segment,
) -> PerNs
    ensures { let q = question_in D.oracle asking.now in
        let own = map_in T.content asking.now in
        let keep = is_fitting q.kind_of segment.sub in
        result ≡ found_in keep (root_sources q own) segment.name }
{
    let root = ModuleId::crate_root(asking.world.map.tree.map.krate);
    let bound = scope(asking, root, segment.name);
    let fitting = bound.fitting(asking.world.session, segment.sub);
    or_extern(asking, fitting, segment)
}

/// An absolute path of one segment.
pub fn absolute<D: PathDatabase, T: BindingTable<Vis = Visibility>>(
    asking: &Asking<'_, D, T>,
    segment: Segment,
) -> PerNs
    ensures { let q = question_in D.oracle asking.now in
        let own = map_in T.content asking.now in
        let keep = is_fitting q.kind_of segment.sub in
        result ≡ found_in keep (absolute_sources q own) segment.name }
{
    if is_2015(asking.world.map.krate.edition) {
        from_root(asking, segment)
    } else {
        or_extern(asking, PerNs::none(), segment)
    }
}

/// A plain path of one segment, which an import of edition 2015 looks up from the root.
pub fn relative<D: PathDatabase, T: BindingTable<Vis = Visibility>>(
    asking: &Asking<'_, D, T>,
    segment: Segment,
) -> PerNs
    ensures { let q = question_in D.oracle asking.now in
        let own = map_in T.content asking.now in
        let keep = is_fitting q.kind_of segment.sub in
        result ≡ found_in keep (relative_sources q own segment.place true) segment.name }
{
    if is_2015(asking.world.map.krate.edition) && asking.asked.mode.is_for_import() {
        from_root(asking, segment)
    } else {
        plain(asking, segment)
    }
}
