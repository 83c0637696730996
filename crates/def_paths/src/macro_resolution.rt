//! What a path means in macros. Who asks for a macro wants nothing else, so the other namespaces are not
//! looked at where the path stands alone or leads through modules of its crate, as most do.
ghost use Rattle.std.specs.Prelude.{◌≡◌, ◌∷◌, ◌++◌, []};
ghost use Rattle.std.specs.Option.{option_and_then, option_or};
ghost use Rattle.def_paths.specs.Answers.{first_resolved};
ghost use Rattle.def_paths.specs.OuterMaps.{answer_in as answer_in_map, answer_outside as answer_outside_of};
ghost use Rattle.def_paths.specs.OuterMaps.{answers_outside, answer_of};
ghost use Rattle.def_sources.specs.Asking.{question_in, map_in};

use crate::answers::{answer_in, is_asked_outside, is_map_among};
use crate::short::scope_of;
use def_bindings::{BindingTable, Visibility};
use def_ids::ModuleId;
use def_sources::{Asking, Item, PathDatabase, Segment, World, relative_macro, scope_macro};
use item_tree::ModPath;

/// What a path means in macros in the map that is asked.
fn macro_in<D: PathDatabase, T: BindingTable<Vis = Visibility>>(
    asking: &Asking<'_, D, T>,
    place: ModuleId,
    path: &ModPath,
) -> Option<Item>
    ensures { let q = question_in D.oracle asking.now in
        let own = map_in T.content asking.now in
        result ≡ (answer_in_map q place path.now own).resolved_def.macros }
{
    if let Some(name) = path.as_ident() {
        let sub = asking.asked.sub;
        return relative_macro(asking, Segment { place, name, sub });
    }
    match scope_of(asking, place, path) {
        Some((module, name)) => scope_macro(asking, module, name),
        None => answer_in(asking, place, path).resolved_def.macros,
    }
}

/// What a path means in macros in the map of a module, asked from there, if that map is there.
fn macro_outside<D: PathDatabase, T>(
    asking: &Asking<'_, D, T>,
    place: ModuleId,
    path: &ModPath,
) -> Option<Item>
    ensures { let q = question_in D.oracle asking.now in
        result ≡ option_and_then (λ answer. answer.resolved_def.macros) (answer_outside_of q path.now place) }
{
    let (map, table) = asking.world.db.finished_map(place.map)?;
    let world = World {
        map,
        table,
        local: asking.world.local,
        db: asking.world.db,
        session: asking.world.session,
    };
    let there = Asking {
        world,
        asked: asking.asked,
    };
    macro_in(&there, place, path)
}

/// What a path means in macros in the map of a module, if it is none of those of the modules before.
fn macro_in_next<D: PathDatabase, T>(
    asking: &Asking<'_, D, T>,
    path: &ModPath,
    before: &[ModuleId],
    place: ModuleId,
) -> Option<Item>
    ensures { let q = question_in D.oracle asking.now in
        (rest : _) → first_resolved (λ p. p.macros) (answers_outside q path.now before.now (place ∷ rest))
        ≡ option_or result (first_resolved (λ p. p.macros) (answers_outside q path.now (before.now ++ place ∷ []) rest)) }
{
    if is_map_among(before, place) {
        None
    } else {
        macro_outside(asking, place, path)
    }
}

/// What a path means in macros in the maps around a block: what the first has that has any.
fn macro_around<D: PathDatabase, T>(
    asking: &Asking<'_, D, T>,
    path: &ModPath,
    containing: &[ModuleId],
) -> Option<Item>
    ensures { let q = question_in D.oracle asking.now in
        result ≡ first_resolved (λ p. p.macros) (answers_outside q path.now [] containing.now) }
{
    'maps: for i in 0..containing.len() {
        let found = macro_in_next(asking, path, &containing[..i], containing[i]);
        if found.is_some() {
            return found;
        }
    }
    None
}

/// What a path means in macros: in the map that is asked, and from a block's root in those around it
/// too.
pub(crate) fn resolve_macro<D: PathDatabase, T: BindingTable<Vis = Visibility>>(
    asking: &Asking<'_, D, T>,
    place: ModuleId,
    path: &ModPath,
) -> Option<Item>
    ensures { let q = question_in D.oracle asking.now in
        let own = map_in T.content asking.now in
        result ≡ (answer_of q own place path.now).resolved_def.macros }
{
    let here = macro_in(asking, place, path);
    if here.is_some() || !is_asked_outside(place, path) {
        return here;
    }
    macro_around(asking, path, asking.world.map.tree.containing.as_slice())
}
