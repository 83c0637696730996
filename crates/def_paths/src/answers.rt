//! What paths answer: a step for each segment after the first, and the answers of several maps as
//! one.
ghost use Rattle.std.specs.Prelude.{◌≡◌, ◌≤◌, ◌<◌, ◌&&◌, ◌||◌, ◌∷◌, ◌++◌, [], None, false, length, drop, option_map, if◌then◌else◌};
ghost use Rattle.std.specs.List.{list_any};
ghost use Rattle.def_ids.specs.Ids.{is_block_root, is_same_map};
ghost use Rattle.def_paths.specs.Answers.{missing as missing_after, reached as reached_with};
ghost use Rattle.def_paths.specs.Answers.{variants_of, variant_named as first_named, variant_found as found_of};
ghost use Rattle.def_paths.specs.Answers.{step as step_of, is_elsewhere as elsewhere, walk as walk_of};
ghost use Rattle.def_paths.specs.Answers.{answer_after, answer_from, joined};
ghost use Rattle.def_sources.specs.declared.per_ns.PerNs.{PerNs};
ghost use Rattle.def_sources.specs.Asking.{question_in, map_in, map_with};
ghost use Rattle.def_sources.specs.Items.{is_fitting};
ghost use Rattle.def_paths.specs.OuterMaps.{is_alone as stands_alone, is_plain as has_no_word};
ghost use Rattle.def_paths.specs.OuterMaps.{answer_in as answer_in_map, answer_outside as answer_outside_of};
ghost use Rattle.def_paths.specs.OuterMaps.{answers_outside, answer_of};
ghost use Rattle.def_sources.specs.PerNs.{Item, in_types, is_nothing, per_namespace};
ghost use Rattle.def_ids.specs.declared.ids.Def.TheVariants.{Module};
ghost use Rattle.def_sources.specs.Sources.{scope_source, at_module, by_sources, absolute_sources, relative_sources};

use crate::path_result::{PrefixInfo, ReachedFixedPoint, ResolvePathResult};
use crate::short::scope_of;
use def_bindings::{BindingTable, Visibility};
use def_ids::{Def, EnumId, ModuleId};
use def_interner::LocationId;
use def_modules::MapData;
use def_oracle::EnumVariant;
use def_sources::{
    Asking, Item, PathDatabase, PerNs, Segment, World, absolute, absolute_type, public_item,
    relative, relative_type, scope, scope_type,
};
use item_tree::{ModPath, Name, PathKind};

/// The answer where something on the way is missing.
fn missing(differing_crate: bool) -> ResolvePathResult
    ensures { result ≡ missing_after differing_crate }
{
    ResolvePathResult {
        resolved_def: PerNs::none(),
        segment_index: None,
        reached_fixedpoint: ReachedFixedPoint::No,
        prefix_info: PrefixInfo { differing_crate },
    }
}

/// What was reached, and the first segment that is left.
fn reached(
    resolved_def: PerNs,
    segment_index: Option<usize>,
    differing_crate: bool,
) -> ResolvePathResult
    ensures { result ≡ reached_with resolved_def segment_index differing_crate }
{
    ResolvePathResult {
        resolved_def,
        segment_index,
        reached_fixedpoint: ReachedFixedPoint::Yes,
        prefix_info: PrefixInfo { differing_crate },
    }
}

/// The first variant of a name.
fn variant_named(variants: &[EnumVariant], name: Name) -> Option<EnumVariant>
    ensures { result ≡ first_named variants.now name }
{
    for variant in variants {
        if variant.name == name {
            return Some(*variant);
        }
    }
    None
}

/// A variant in types, and in values where it has a constructor.
fn variant_found(variant: EnumVariant) -> PerNs
    ensures { result ≡ found_of variant }
{
    let item = public_item(Def::Variant(variant.id));
    PerNs {
        types: Some(item),
        values: if variant.value_ctor { Some(item) } else { None },
        macros: None,
    }
}

/// Whether a path has no word before it.
fn is_plain(kind: PathKind) -> bool
    ensures { result ≡ has_no_word kind }
{
    match kind {
        PathKind::Plain => true,
        _ => false,
    }
}

/// Whether a module is of a map of one of these.
pub fn is_map_among(before: &[ModuleId], place: ModuleId) -> bool
    ensures { result ≡ list_any (λ b. is_same_map b.map place.map) before.now }
{
    for other in before {
        if other.map == place.map {
            return true;
        }
    }
    false
}

impl ReachedFixedPoint {
    ghost use Rattle.def_paths.specs.Answers.{is_reached};

    /// Whether one of two is reached.
    fn or(self, other: ReachedFixedPoint) -> ReachedFixedPoint
        ensures { is_reached result ≡ (is_reached self || is_reached other) }
    {
        match self {
            ReachedFixedPoint::Yes => ReachedFixedPoint::Yes,
            ReachedFixedPoint::No => other,
        }
    }
}

impl ResolvePathResult {
    ghost use Rattle.def_paths.specs.Answers.{leading};

    /// The first of two answers that is not empty, and else the first.
    fn leading(self, other: ResolvePathResult) -> ResolvePathResult
        ensures { result ≡ leading self (other ∷ []) }
    {
        if self.resolved_def.is_none() && !other.resolved_def.is_none() {
            other
        } else {
            self
        }
    }

    /// Two answers as one.
    fn join(self, other: ResolvePathResult) -> ResolvePathResult
        ensures { result ≡ joined self (other ∷ []) }
    {
        let leading = self.leading(other);
        ResolvePathResult {
            resolved_def: self.resolved_def.or(other.resolved_def),
            segment_index: leading.segment_index,
            reached_fixedpoint: self.reached_fixedpoint.or(other.reached_fixedpoint),
            prefix_info: leading.prefix_info,
        }
    }
}

/// The variant of a name of an enum.
fn variant<D: PathDatabase, T>(
    asking: &Asking<'_, D, T>,
    id: EnumId,
    name: Name,
) -> Option<EnumVariant>
    ensures { let q = question_in D.oracle asking.now in
        result ≡ first_named (variants_of q id.0) name }
{
    match id.lookup(asking.world.session) {
        Some(loc) => match asking.world.db.enum_variants(loc) {
            Some(variants) => variant_named(variants, name),
            None => None,
        },
        None => None,
    }
}

/// What a definition has of the next segment, where it can have names.
fn step<D: PathDatabase, T: BindingTable<Vis = Visibility>>(
    asking: &Asking<'_, D, T>,
    def: Def,
    name: Name,
) -> Option<PerNs>
    ensures { let q = question_in D.oracle asking.now in
        let own = map_in T.content asking.now in
        result ≡ step_of q own def name }
{
    match def {
        Def::Module(place) => Some(scope(asking, place, name)),
        Def::Enum(id) => match variant(asking, id, name) {
            Some(variant) => Some(variant_found(variant)),
            None => None,
        },
        _ => None,
    }
}

/// What a definition has of the next segment in types, where it can have names.
fn step_in_types<D: PathDatabase, T: BindingTable<Vis = Visibility>>(
    asking: &Asking<'_, D, T>,
    def: Def,
    name: Name,
) -> Option<Option<Item>>
    ensures { let q = question_in D.oracle asking.now in
        let own = map_in T.content asking.now in
        result ≡ option_map (λ found. found.types) (step_of q own def name) }
{
    match def {
        Def::Module(place) => Some(scope_type(asking, place, name)),
        Def::Enum(id) => match variant(asking, id, name) {
            Some(variant) => Some(Some(public_item(Def::Variant(variant.id)))),
            None => None,
        },
        _ => None,
    }
}

/// Whether a segment is looked up in a module of another crate.
pub(crate) fn is_elsewhere(map: &MapData, def: Def) -> bool
    ensures { (content : _) → result ≡ elsewhere (map_with map.now content) def }
{
    match def {
        Def::Module(place) => place.map.krate != map.tree.map.krate,
        _ => false,
    }
}

/// The last segment, after the definition that those before it give.
fn last_step<D: PathDatabase, T: BindingTable<Vis = Visibility>>(
    asking: &Asking<'_, D, T>,
    item: Item,
    name: Name,
    index: usize,
    crossed: bool,
) -> ResolvePathResult
    ensures { let q = question_in D.oracle asking.now in
        let own = map_in T.content asking.now in
        result ≡ walk_of q own crossed (in_types item) index (name ∷ []) }
{
    match step(asking, item.def, name) {
        Some(found) => {
            let crosses = is_elsewhere(asking.world.map, item.def);
            reached(found, None, crossed || crosses)
        }
        None => reached(PerNs::of_type(item), Some(index), crossed),
    }
}

/// The segments from `begin` on, after a definition. One with others behind it is looked up in types
/// alone.
fn walk<D: PathDatabase, T: BindingTable<Vis = Visibility>>(
    asking: &Asking<'_, D, T>,
    first: Item,
    begin: usize,
    segments: &[Name],
) -> ResolvePathResult
    requires { begin ≤ length segments.now }
    ensures { let q = question_in D.oracle asking.now in
        let own = map_in T.content asking.now in
        result ≡ walk_of q own false (in_types first) begin (drop begin segments.now) }
{
    let mut item = first;
    let mut crossed = false;
    'segments: for i in begin..segments.len() {
        let name = segments[i];
        if i + 1 == segments.len() {
            return last_step(asking, item, name, i, crossed);
        }
        let Some(next) = step_in_types(asking, item.def, name) else {
            return reached(PerNs::of_type(item), Some(i), crossed);
        };
        crossed = crossed || is_elsewhere(asking.world.map, item.def);
        match next {
            Some(found) => item = found,
            None => return missing(crossed),
        }
    }
    reached(PerNs::of_type(item), None, crossed)
}

/// A path from a module on, if that is there.
fn from_module<D: PathDatabase, T: BindingTable<Vis = Visibility>>(
    asking: &Asking<'_, D, T>,
    place: Option<ModuleId>,
    path: &ModPath,
) -> ResolvePathResult
    ensures { let q = question_in D.oracle asking.now in
        let own = map_in T.content asking.now in
        (keep : _) → result ≡ answer_from q own keep (at_module place) path.now.segments }
{
    match place {
        Some(found) => {
            let first = public_item(Def::Module(found));
            walk(asking, first, 0, path.segments.as_slice())
        }
        None => missing(false),
    }
}

/// A path of one segment, after what it means.
fn from_name(found: PerNs) -> ResolvePathResult
    ensures { result ≡ (if is_nothing found then missing_after false else reached_with found None false) }
{
    if found.is_none() {
        missing(false)
    } else {
        reached(found, None, false)
    }
}

/// A path of more segments, after what the first means in types.
fn from_prefix<D: PathDatabase, T: BindingTable<Vis = Visibility>>(
    asking: &Asking<'_, D, T>,
    found: Option<Item>,
    segments: &[Name],
) -> ResolvePathResult
    requires { 1 < length segments.now }
    ensures { let q = question_in D.oracle asking.now in
        let own = map_in T.content asking.now in
        (all : PerNs) → all.types ≡ found → result ≡ answer_after q own all (drop 1 segments.now) }
{
    match found {
        Some(item) => walk(asking, item, 1, segments),
        None => missing(false),
    }
}

/// An absolute path.
fn absolute_path<D: PathDatabase, T: BindingTable<Vis = Visibility>>(
    asking: &Asking<'_, D, T>,
    place: ModuleId,
    path: &ModPath,
) -> ResolvePathResult
    ensures { let q = question_in D.oracle asking.now in
        let own = map_in T.content asking.now in
        let keep = is_fitting q.kind_of None in
        result ≡ answer_from q own keep (by_sources (absolute_sources q own)) path.now.segments }
{
    let segments = path.segments.as_slice();
    match segments {
        [] => missing(false),
        [name] => {
            let found = absolute(
                asking,
                Segment {
                    place,
                    name: *name,
                    sub: None,
                },
            );
            from_name(found)
        }
        [name, ..] => from_prefix(asking, absolute_type(asking, *name), segments),
    }
}

/// A plain path.
fn plain_path<D: PathDatabase, T: BindingTable<Vis = Visibility>>(
    asking: &Asking<'_, D, T>,
    place: ModuleId,
    path: &ModPath,
) -> ResolvePathResult
    ensures { let q = question_in D.oracle asking.now in
        let own = map_in T.content asking.now in
        let alone = stands_alone path.now.segments in
        let keep = is_fitting q.kind_of (if alone then asking.now.asked.sub else None) in
        result ≡ answer_from q own keep (by_sources (relative_sources q own place alone)) path.now.segments }
{
    let segments = path.segments.as_slice();
    match segments {
        [] => missing(false),
        [name] => {
            let found = relative(
                asking,
                Segment {
                    place,
                    name: *name,
                    sub: asking.asked.sub,
                },
            );
            from_name(found)
        }
        [name, ..] => from_prefix(asking, relative_type(asking, place, *name), segments),
    }
}

/// What a path means in the map that is asked.
pub(crate) fn answer_in<D: PathDatabase, T: BindingTable<Vis = Visibility>>(
    asking: &Asking<'_, D, T>,
    place: ModuleId,
    path: &ModPath,
) -> ResolvePathResult
    ensures { let q = question_in D.oracle asking.now in
        let own = map_in T.content asking.now in
        result ≡ answer_in_map q place path.now own }
{
    match path.kind {
        PathKind::Crate => {
            let root = ModuleId::crate_root(asking.world.map.tree.map.krate);
            from_module(asking, Some(root), path)
        }
        PathKind::DollarCrate(krate) => {
            from_module(asking, Some(ModuleId::crate_root(krate)), path)
        }
        PathKind::Super(n) => {
            let ancestor = asking.world.map.tree.ancestor(place, n as usize);
            from_module(asking, ancestor, path)
        }
        PathKind::Abs => absolute_path(asking, place, path),
        PathKind::Plain => plain_path(asking, place, path),
    }
}

/// What a name of a module means that a path leads to.
fn bound_answer<D: PathDatabase, T: BindingTable<Vis = Visibility>>(
    asking: &Asking<'_, D, T>,
    place: ModuleId,
    name: Name,
) -> ResolvePathResult
    ensures { let q = question_in D.oracle asking.now in
        let own = map_in T.content asking.now in
        result ≡ reached_with (per_namespace (scope_source q own place name)) None false }
{
    reached(scope(asking, place, name), None, false)
}

/// What a path means in the map that is asked, which most paths of it do not leave.
fn answer_here<D: PathDatabase, T: BindingTable<Vis = Visibility>>(
    asking: &Asking<'_, D, T>,
    place: ModuleId,
    path: &ModPath,
) -> ResolvePathResult
    ensures { let q = question_in D.oracle asking.now in
        let own = map_in T.content asking.now in
        result ≡ answer_in_map q place path.now own }
{
    match scope_of(asking, place, path) {
        Some((module, name)) => bound_answer(asking, module, name),
        None => answer_in(asking, place, path),
    }
}

/// What a path means in the map of a module, asked from there, if that map is there.
fn answer_outside<D: PathDatabase, T>(
    asking: &Asking<'_, D, T>,
    place: ModuleId,
    path: &ModPath,
) -> Option<ResolvePathResult>
    ensures { let q = question_in D.oracle asking.now in
        result ≡ answer_outside_of q path.now place }
{
    match asking.world.db.finished_map(place.map) {
        Some((map, table)) => {
            let world = World {
                map,
                table,
                local: asking.world.local,
                db: asking.world.db,
                session: asking.world.session,
            };
            let there = Asking {
                world,
                asked: asking.asked,
            };
            Some(answer_in(&there, place, path))
        }
        None => None,
    }
}

/// An answer joined with that of one more map, if it is none of those before.
fn with_map<D: PathDatabase, T>(
    asking: &Asking<'_, D, T>,
    path: &ModPath,
    answer: ResolvePathResult,
    before: &[ModuleId],
    place: ModuleId,
) -> ResolvePathResult
    ensures { let q = question_in D.oracle asking.now in
        (rest : _) → joined result (answers_outside q path.now (before.now ++ place ∷ []) rest)
        ≡ joined answer (answers_outside q path.now before.now (place ∷ rest)) }
{
    if is_map_among(before, place) {
        return answer;
    }
    match answer_outside(asking, place, path) {
        Some(other) => answer.join(other),
        None => answer,
    }
}

/// What a path means, with what it means in the maps around a block.
fn with_outside<D: PathDatabase, T>(
    asking: &Asking<'_, D, T>,
    path: &ModPath,
    first: ResolvePathResult,
    containing: &[ModuleId],
) -> ResolvePathResult
    ensures { let q = question_in D.oracle asking.now in
        result ≡ joined first (answers_outside q path.now [] containing.now) }
{
    let mut answer = first;
    'maps: for i in 0..containing.len() {
        let place = containing[i];
        answer = with_map(asking, path, answer, &containing[..i], place);
    }
    answer
}

/// Whether a path is looked up in the maps around a block too.
pub(crate) fn is_asked_outside(place: ModuleId, path: &ModPath) -> bool
    ensures { result ≡ (has_no_word path.now.kind && is_block_root place) }
{
    is_plain(path.kind) && place.is_block_root()
}

/// What a path means: in the map that is asked, and from a block's root in those around it too.
pub(crate) fn resolve<D: PathDatabase, T: BindingTable<Vis = Visibility>>(
    asking: &Asking<'_, D, T>,
    place: ModuleId,
    path: &ModPath,
) -> ResolvePathResult
    ensures { let q = question_in D.oracle asking.now in
        let own = map_in T.content asking.now in
        result ≡ answer_of q own place path.now }
{
    let here = answer_here(asking, place, path);
    if !is_asked_outside(place, path) {
        return here;
    }
    let containing = asking.world.map.tree.containing.as_slice();
    with_outside(asking, path, here, containing)
}
