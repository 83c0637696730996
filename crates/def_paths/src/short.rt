//! Paths that lead through modules of their crate, as most do: where the last segment is looked up,
//! and where the map that is asked has it.
ghost use Rattle.std.specs.Prelude.{IfSome, ◌≡◌, None, false, if◌then◌else◌};
ghost use Rattle.def_paths.specs.Answers.{answer_from, reached as reached_with, walk as walk_of};
ghost use Rattle.def_paths.specs.OuterMaps.{answer_in as answer_in_map, answer_of, is_alone as stands_alone};
ghost use Rattle.def_ids.specs.declared.ids.Def.TheVariants.{Module};
ghost use Rattle.item_tree.specs.declared.mod_path.PathKind.TheVariants.{Super};
ghost use Rattle.def_sources.specs.Asking.{question_in, map_in};
ghost use Rattle.def_sources.specs.Items.{is_fitting};
ghost use Rattle.def_sources.specs.PerNs.{Item, in_types, per_namespace};
ghost use Rattle.def_sources.specs.Sources.{scope_source, by_sources, relative_sources};

use crate::answers::{is_asked_outside, is_elsewhere};
use def_bindings::{BindingTable, Visibility};
use def_ids::{Def, ModuleId};
use def_sources::{Asking, PathDatabase, relative_type, scope_module};
use item_tree::{ModPath, Name, PathKind};

/// Where the last of these segments is looked up, which begin in a module: the module, and that
/// segment. `None` unless the others lead there through modules of this crate alone, as they mostly
/// do: then nothing but a module is kept on the way.
#[inline(never)]
fn scope_reached<D: PathDatabase, T: BindingTable<Vis = Visibility>>(
    asking: &Asking<'_, D, T>,
    first: ModuleId,
    segments: &[Name],
) -> Option<(ModuleId, Name)>
    ensures { let q = question_in D.oracle asking.now in
        let own = map_in T.content asking.now in
        IfSome result (λ there. (item : Item) (i : _) → item.def ≡ Module first →
        walk_of q own false (in_types item) i segments.now
        ≡ reached_with (per_namespace (scope_source q own there.0 there.1)) None false) }
{
    let len = segments.len();
    if len == 0 {
        return None;
    }
    let last = len - 1;
    let mut place = first;
    'segments: for i in 0..last {
        if is_elsewhere(asking.world.map, Def::Module(place)) {
            return None;
        }
        place = scope_module(asking, place, segments[i])?;
    }
    if is_elsewhere(asking.world.map, Def::Module(place)) {
        return None;
    }
    Some((place, segments[last]))
}

/// Where the last segment of a plain path is looked up, and that segment, if the others lead there
/// through modules of this crate.
#[inline(never)]
fn plain_scope<D: PathDatabase, T: BindingTable<Vis = Visibility>>(
    asking: &Asking<'_, D, T>,
    place: ModuleId,
    segments: &[Name],
) -> Option<(ModuleId, Name)>
    ensures { let q = question_in D.oracle asking.now in
        let own = map_in T.content asking.now in
        let alone = stands_alone segments.now in
        let keep = is_fitting q.kind_of (if alone then asking.now.asked.sub else None) in
        IfSome result (λ there. answer_from q own keep (by_sources (relative_sources q own place alone)) segments.now
        ≡ reached_with (per_namespace (scope_source q own there.0 there.1)) None false) }
{
    match segments {
        [] | [_] => None,
        [name, ..] => {
            let item = relative_type(asking, place, *name)?;
            let first = item.def.as_module()?;
            scope_reached(asking, first, &segments[1..])
        }
    }
}

/// Where the last segment of a path is looked up that begins so many modules up, and that segment, if
/// the others lead there through modules of this crate.
#[inline(never)]
fn super_scope<D: PathDatabase, T: BindingTable<Vis = Visibility>>(
    asking: &Asking<'_, D, T>,
    place: ModuleId,
    path: &ModPath,
    levels: u8,
) -> Option<(ModuleId, Name)>
    requires { path.now.kind ≡ Super levels }
    ensures { let q = question_in D.oracle asking.now in
        let own = map_in T.content asking.now in
        IfSome result (λ there. answer_in_map q place path.now own
        ≡ reached_with (per_namespace (scope_source q own there.0 there.1)) None false) }
{
    let ancestor = asking.world.map.tree.ancestor(place, levels as usize)?;
    scope_reached(asking, ancestor, path.segments.as_slice())
}

/// Where a path's last segment is looked up, and that segment, if the others lead there through
/// modules of this crate.
#[inline(always)]
pub(crate) fn scope_of<D: PathDatabase, T: BindingTable<Vis = Visibility>>(
    asking: &Asking<'_, D, T>,
    place: ModuleId,
    path: &ModPath,
) -> Option<(ModuleId, Name)>
    ensures { let q = question_in D.oracle asking.now in
        let own = map_in T.content asking.now in
        IfSome result (λ there. answer_in_map q place path.now own
        ≡ reached_with (per_namespace (scope_source q own there.0 there.1)) None false) }
{
    let segments = path.segments.as_slice();
    match path.kind {
        PathKind::Crate => {
            let first = ModuleId::crate_root(asking.world.map.tree.map.krate);
            scope_reached(asking, first, segments)
        }
        PathKind::DollarCrate(krate) => {
            scope_reached(asking, ModuleId::crate_root(krate), segments)
        }
        PathKind::Super(levels) => super_scope(asking, place, path, levels),
        PathKind::Abs => None,
        PathKind::Plain => plain_scope(asking, place, segments),
    }
}

/// Where the map that is asked has all that a path means: a module of it, and a name there. `None`
/// where the path may lead elsewhere, or mean more.
pub(crate) fn own_scope_of<D: PathDatabase, T: BindingTable<Vis = Visibility>>(
    asking: &Asking<'_, D, T>,
    place: ModuleId,
    path: &ModPath,
) -> Option<(ModuleId, Name)>
    ensures { let q = question_in D.oracle asking.now in
        let own = map_in T.content asking.now in
        IfSome result (λ there. answer_of q own place path.now
        ≡ reached_with (per_namespace (own.content.binding there.0 there.1)) None false) }
{
    if is_asked_outside(place, path) {
        return None;
    }
    let (module, name) = scope_of(asking, place, path)?;
    if module.map != asking.world.map.tree.map {
        return None;
    }
    Some((module, name))
}
