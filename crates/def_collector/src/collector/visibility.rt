//! What visibilities mean in a module.
ghost use Rattle.std.specs.Prelude.{◌≡◌, map};
ghost use Rattle.def_collector.specs.Collector.{state_of};
ghost use Rattle.def_collector.specs.Constructors.{ctor_vis_in, order_in, vis_in};
ghost use Rattle.def_rules.specs.Items.{least_in, least_of, written_vis};
ghost use Rattle.def_rules.specs.State.{world};
ghost use Rattle.def_sources.specs.Tables.{bound_by};
ghost use Rattle.def_map.specs.Asking.{world_lent};

use super::DefCollector;
use def_bindings::{VisOrder, Visibility};
use def_ids::ModuleId;
use def_imports::visibility_in;
use def_interner::Interner;
use def_map::{SourceDatabase, Table, World};
use item_tree::{CtorVisibility, RawVisibility};

impl DefCollector<'_> {
    /// What paths are read against.
    pub fn world<'w, D: SourceDatabase>(
        &'w self,
        db: &'w D,
        session: &'w Interner,
    ) -> World<'w, D, Table>
        ensures { world_lent D.oracle bound_by result ≡ world (D.oracle db.now) (state_of self.now session.now) }
    {
        World {
            map: &self.def_map,
            table: self.table.table(),
            local: self.local(),
            db,
            session,
        }
    }

    /// What a written visibility means in a module. It is public where it means nothing.
    pub fn resolve_visibility<D: SourceDatabase>(
        &self,
        db: &D,
        session: &Interner,
        module_id: ModuleId,
        visibility: &RawVisibility,
    ) -> Visibility
        ensures { result ≡ written_vis (D.oracle db.now) (state_of self.now session.now) module_id visibility.now }
    {
        visibility_in(&self.world(db, session), module_id, visibility)
    }
}

/// The visibility of a struct's constructor in a module of this world, if it has one.
pub(super) fn constructor_visibility<D: SourceDatabase>(
    world: &World<'_, D, Table>,
    module_id: ModuleId,
    ctor: &CtorVisibility,
) -> Option<Visibility>
    ensures { result ≡ ctor_vis_in (world_lent D.oracle bound_by world.now) module_id ctor.now }
{
    match ctor {
        CtorVisibility::NoValueNsCtor => None,
        CtorVisibility::ValueNsCtorWithVis(visibility) => {
            Some(visibility_in(world, module_id, visibility))
        }
        CtorVisibility::ValueNsCtorWithMinVis(fields) => {
            least_visibility(world, module_id, fields.as_slice())
        }
    }
}

/// The least of the visibilities of a struct's fields, if there are any and each two that meet are
/// related.
fn least_visibility<D: SourceDatabase>(
    world: &World<'_, D, Table>,
    module_id: ModuleId,
    fields: &[RawVisibility],
) -> Option<Visibility>
    ensures { result ≡ (let w = world_lent D.oracle bound_by world.now in
        least_in (order_in w) (map (λ raw. vis_in w module_id raw) fields.now)) }
{
    match fields {
        [] => None,
        [first, rest @ ..] => {
            let first = visibility_in(world, module_id, first);
            least_with(world, module_id, first, rest)
        }
    }
}

/// The least of a visibility and those of fields, if each two that meet are related.
fn least_with<D: SourceDatabase>(
    world: &World<'_, D, Table>,
    module_id: ModuleId,
    first: Visibility,
    fields: &[RawVisibility],
) -> Option<Visibility>
    ensures { result ≡ (let w = world_lent D.oracle bound_by world.now in
        least_of (order_in w) first (map (λ raw. vis_in w module_id raw) fields.now)) }
{
    let mut least = first;
    'fields: for field in fields {
        let vis = visibility_in(world, module_id, field);
        match world.map.tree.min(least, vis) {
            Some(lesser) => least = lesser,
            None => return None,
        }
    }
    Some(least)
}
