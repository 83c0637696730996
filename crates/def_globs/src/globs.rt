//! A table whose names travel along its glob edges.
ghost use Rattle.std.specs.Prelude.{◌≡◌, OnOk, OnErr};
ghost use Rattle.def_bindings.specs.Content.{without_binding};
ghost use Rattle.def_bindings.specs.Puts.{joined};
ghost use Rattle.def_globs.specs.Waves.{KeepsGlobs, AddsEdge};
ghost use Rattle.def_globs.specs.Globs.{BeginsUpdate, Updates, ClosesTo, KeepsClosed, KeepsCoherent, with_recorded, KeepsClosedWith, KeepsBegins, StaysCoherent, Stays};
ghost use Rattle.def_globs.specs.Raised.{KeepsRaised, KeepsRaisedWith, RaisesTo};

mod changes;
mod wave;

use changes::Changes;
use def_bindings::{BindingTable, EdgeTo, Entry, Namespace, VisOrder, is_raised};
use def_ids::{GlobId, ModuleId};
use std::alloc::{AllocError, Global};
use std::marker::Model;
use tree_ids::Name;
use wave::{put_list, spread};

/// An edge beside the one that is there.
fn join<O: VisOrder>(
    order: &O,
    there: Option<EdgeTo<O::Vis>>,
    edge: EdgeTo<O::Vis>,
) -> EdgeTo<O::Vis>
    ensures { result ≡ joined (O.order order.now) there edge }
{
    match there {
        Some(there) => EdgeTo {
            importer: there.importer,
            vis: if is_raised(order, there.vis, edge.vis) {
                edge.vis
            } else {
                there.vis
            },
            glob: there.glob,
        },
        None => edge,
    }
}

/// A table whose names travel along its glob edges. A contract sees the table alone.
#[derive(Drop)]
pub struct Globs<T> {
    table: T,
    /// The names that changed, while they are watched.
    changes: Changes,
}

impl<T> Model for Globs<T> {
    ghost Value = { T };

    ghost coded = { T.code };

    ghost view = { λ g. g.table };
}

// What asks nothing of the table stands apart: a call of a bounded impl is compared with the whole impl
// of the table at each place that makes it.
impl<T> Globs<T> {
    /// This table, with the edges that it has.
    pub fn new(alloc: Global, table: T) -> Globs<T>
        ensures { result ≡ table }
    {
        Globs {
            table,
            changes: Changes::new(alloc),
        }
    }

    /// The table.
    pub fn table(&self) -> &T
        ensures { result.now ≡ self.now }
    {
        &self.table
    }

    /// The table alone.
    pub fn into_table(self) -> T
        ensures { result ≡ self }
    {
        let Globs { table, changes: _ } = self;
        table
    }

    /// Begins to watch which names change.
    pub fn watch(&mut self)
        ensures { self.new ≡ self.old }
    {
        self.changes.watch();
    }

    /// Ends the watch, and forgets what changed.
    pub fn unwatch(&mut self)
        ensures { self.new ≡ self.old }
    {
        self.changes.unwatch();
    }

    /// The names that changed under the watch, each with its module, and with each change once more.
    pub fn changed(&self) -> &[(ModuleId, Name)] {
        self.changes.names()
    }

    /// Forgets what changed so far.
    pub fn forget_changed(&mut self)
        ensures { self.new ≡ self.old }
    {
        self.changes.forget();
    }
}

impl<T: BindingTable> Globs<T> {
    /// Says how many names a module without names may get.
    pub fn expect_names(&mut self, module: ModuleId, names: usize)
        ensures { T.content self.new ≡ T.content self.old }
    {
        self.table.expect_names(module, names);
    }

    /// Takes a binding out.
    pub fn remove(&mut self, module: ModuleId, name: Name, ns: Namespace)
        ensures { T.content self.new ≡ without_binding (T.content self.old) «module» name ns }
    {
        self.table.remove(module, name, ns);
    }

    /// Puts a list in a module, and lets what changes travel along the edges to the end. On `Err`
    /// a beginning of that was done: the first entries are put, and some of what changed was copied.
    pub fn update<O: VisOrder<Vis = T::Vis>>(
        &mut self,
        order: &O,
        module: ModuleId,
        list: &[Entry<T::Vis>],
    ) -> Result<(), AllocError>
        // What is done.
        ensures updates { OnOk result
            (Updates (O.order order.now) «module» list.now (T.content self.old)
            (T.content self.new)) }
        ensures closes { OnOk result
            (ClosesTo (O.order order.now) «module» list.now (T.content self.old)
            (T.content self.new)) }
        ensures raises { OnOk result
            (RaisesTo (O.order order.now) «module» list.now (T.content self.old)
            (T.content self.new)) }

        // What stays.
        ensures closed { OnOk result
            (KeepsClosed (O.order order.now) (T.content self.old) (T.content self.new)) }
        ensures coherent { OnOk result
            (KeepsCoherent (O.order order.now) «module» list.now (T.content self.old)
            (T.content self.new)) }
        ensures raised { OnOk result
            (KeepsRaised (O.order order.now) «module» list.now (T.content self.old)
            (T.content self.new)) }
        ensures globs { OnOk result
            (KeepsGlobs «module» list.now (T.content self.old) (T.content self.new)) }
        ensures edges { OnOk result ((T.content self.new).edges ≡ (T.content self.old).edges) }

        // What stays, refused or not.
        ensures stays { Stays (T.content self.old) (T.content self.new) }
        ensures refused { OnErr result
            (BeginsUpdate (O.order order.now) «module» list.now (T.content self.old)
            (T.content self.new)) }
    {
        let changed = put_list(&mut self.table, &mut self.changes, order, module, list)?;
        spread(&mut self.table, &mut self.changes, order, module, changed)?;
        Ok(())
    }

    /// Records an edge. One edge stands between two modules: the first glob's, with the greater
    /// visibility. On `Err` the table stays.
    pub fn add_edge<O: VisOrder<Vis = T::Vis>>(
        &mut self,
        order: &O,
        source: ModuleId,
        importer: ModuleId,
        vis: T::Vis,
        glob: GlobId,
    ) -> Result<(), AllocError>
        // What is done.
        ensures edge { OnOk result
            (T.content self.new ≡ with_recorded (O.order order.now) (T.content self.old) source
            (record { importer = importer; vis = vis; glob = glob })) }

        // What stays.
        ensures closed { OnOk result
            (KeepsClosedWith (O.order order.now) source importer (T.content self.old)
            (T.content self.new)) }
        ensures begins { OnOk result
            (KeepsBegins source glob (T.content self.old) (T.content self.new)) }
        ensures coherent { OnOk result
            (StaysCoherent (O.order order.now) (T.content self.old) (T.content self.new)) }
        ensures raised { OnOk result
            (KeepsRaisedWith (O.order order.now) source
            (record { importer = importer; vis = vis; glob = glob }) (T.content self.old)
            (T.content self.new)) }
        ensures led { OnOk result
            (AddsEdge source importer glob (T.content self.old) (T.content self.new)) }
        ensures refused { OnErr result (T.content self.new ≡ T.content self.old) }
    {
        let there = self.table.edge_to(source, importer);
        let edge = join(
            order,
            there,
            EdgeTo {
                importer,
                vis,
                glob,
            },
        );
        self.table.set_edge(source, edge)?;
        Ok(())
    }
}
