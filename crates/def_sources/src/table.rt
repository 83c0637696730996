//! The table of bindings that maps have.
ghost use Rattle.std.specs.Prelude.{◌≡◌, ◌<◌, ◌^◌, ◌↔◌, IsTrue, OnErr, OnOk, IfOk, length, slice_get};
ghost use Rattle.def_bindings.specs.Content.{empty, with_binding, with_edge, with_unnamed};
ghost use Rattle.def_sources.specs.Tables.{bound_by};
ghost use Rattle.def_tables.specs.Found.{found_as};
ghost use Rattle.def_tables.specs.Kept.{numbered_vis};
ghost use Rattle.def_tables.specs.NumberedTable.{all_edges};

use def_bindings::{Binding, BindingTable, EdgeTo, NameBindings, Namespace, Slot, Visibility};
use def_ids::{MapId, ModuleId, TraitId};
use def_tables::{Found, NumberedTable, VisNumber};
use item_tree::Name;
use std::alloc::{AllocError, Global};
use std::marker::Model;

/// A name of such a table that stands for something.
pub type FoundName<'a> = Found<'a, Visibility, VisNumber>;

/// The bindings, unnamed traits and glob edges of a map, with visibilities by number. A contract sees
/// the numbered table in it.
// It is no alias: a call of a function over any table is compared with the whole impl of the table that
// it is made for, and where that impl has parameters this takes the check ten seconds at each call.
pub struct Table {
    rows: NumberedTable<Visibility, VisNumber>,
}

impl Drop for Table {
    fn drop(self) {
        let Table { rows: _ } = self;
    }
}

impl Model for Table {
    ghost use Rattle.def_bindings.specs.declared.visibility.Visibility.{Visibility};
    ghost use Rattle.def_tables.specs.declared.kept.VisNumber.{VisNumber};
    ghost use Rattle.def_tables.specs.declared.numbered_table.NumberedTable.{NumberedTable};
    ghost use Rattle.def_bindings.specs.contracts.visibility.Visibility as vis;
    ghost use Rattle.def_tables.specs.contracts.kept.VisNumber as number;
    ghost use Rattle.def_tables.specs.contracts.numbered_table.NumberedTable as numbered;

    ghost Value = { NumberedTable Visibility VisNumber };

    ghost coded = { (numbered.the_row vis.the_row number.the_row).coded };

    ghost view = { λ t. t.rows };
}

impl Table {
    /// A table with nothing in it, which takes the least room for modules of this map, and serves those
    /// of any other as well.
    pub fn of_map(alloc: Global, map: MapId) -> Result<Table, AllocError>
        ensures { IfOk result (λ table. bound_by table ≡ empty) }
    {
        Ok(Table {
            rows: NumberedTable::of_map(alloc, map)?,
        })
    }

    /// Makes room for more names and edges, so that as many are added with no copy of what is there.
    pub fn reserve(&mut self, names: usize, edges: usize) -> Result<(), AllocError>
        ensures { bound_by self.new ≡ bound_by self.old }
    {
        self.rows.reserve(names, edges)
    }

    /// The names of a module, in first-bound order.
    #[inline(always)]
    pub fn names(&self, module: ModuleId) -> &[Name]
        ensures { result.now ≡ (bound_by self.now).names «module» }
    {
        self.rows.names(module)
    }

    /// What a name of a module stands for, found once and asked several times.
    #[inline(always)]
    pub fn found(&self, module: ModuleId, name: Name) -> Option<FoundName<'_>>
        ensures { found_as numbered_vis result ≡ (bound_by self.now).binding «module» name }
    {
        self.rows.found(module, name)
    }

    /// The same, of names that are read in the order in which they were bound: `near` begins with 0, and
    /// says from name to name where the next one is looked for first.
    #[inline(always)]
    pub fn found_near(
        &self,
        module: ModuleId,
        name: Name,
        near: &mut usize,
    ) -> Option<FoundName<'_>>
        ensures { found_as numbered_vis result ≡ (bound_by self.now).binding «module» name }
    {
        self.rows.found_near(module, name, near)
    }

    /// Whether the table has nothing in it.
    pub fn is_empty(&self) -> bool
        ensures { IsTrue result ↔ (bound_by self.now ≡ empty) }
    {
        self.rows.is_empty()
    }

    /// How many edges there are.
    pub fn edge_count(&self) -> usize
        ensures { result ≡ length (all_edges self.now) }
    {
        self.rows.edge_count()
    }

    /// The edge with this number among all in order of recording, and its source.
    pub fn numbered_edge(&self, number: usize) -> Option<(ModuleId, EdgeTo<Visibility>)>
        ensures edge { result ≡ slice_get (all_edges self.now) number }
        ensures few { length (all_edges self.now) < 2 ^ 64 }
    {
        self.rows.numbered_edge(number)
    }
}

impl BindingTable for Table {
    ghost use Rattle.def_tables.specs.NumberedTableLaws.{are_sources, are_tied, modules_of};

    type Vis = Visibility;

    ghost content = { bound_by };

    ghost sources = { λ t. modules_of t.edges.entries.entries };

    #[inline(always)]
    fn binding(&self, module: ModuleId, name: Name, ns: Namespace) -> Option<Binding<Visibility>> {
        self.rows.binding(module, name, ns)
    }

    #[inline(always)]
    fn visibility_near(
        &self,
        module: ModuleId,
        name: Name,
        ns: Namespace,
        near: &mut usize,
    ) -> Option<Visibility> {
        self.rows.visibility_near(module, name, ns, near)
    }

    #[inline(always)]
    fn bindings(&self, module: ModuleId, name: Name) -> NameBindings<Visibility> {
        self.rows.bindings(module, name)
    }

    #[inline(always)]
    fn module_at(&self, module: ModuleId, name: Name) -> Option<ModuleId> {
        self.rows.module_at(module, name)
    }

    #[inline(always)]
    fn name_at(&self, module: ModuleId, index: usize) -> Option<Name> {
        self.rows.name_at(module, index)
    }

    #[inline(always)]
    fn unnamed_at(&self, module: ModuleId, index: usize) -> Option<(TraitId, Visibility)> {
        self.rows.unnamed_at(module, index)
    }

    #[inline(always)]
    fn unnamed_vis(&self, module: ModuleId, item: TraitId) -> Option<Visibility> {
        self.rows.unnamed_vis(module, item)
    }

    #[inline(always)]
    fn edge_at(&self, module: ModuleId, index: usize) -> Option<EdgeTo<Visibility>> {
        self.rows.edge_at(module, index)
    }

    #[inline(always)]
    fn has_edges(&self, module: ModuleId) -> bool {
        self.rows.has_edges(module)
    }

    #[inline(always)]
    fn edge_to(&self, module: ModuleId, importer: ModuleId) -> Option<EdgeTo<Visibility>> {
        self.rows.edge_to(module, importer)
    }

    #[inline(always)]
    fn expect_names(&mut self, module: ModuleId, names: usize) {
        self.rows.expect_names(module, names);
    }

    #[inline(always)]
    fn set(
        &mut self,
        module: ModuleId,
        name: Name,
        ns: Namespace,
        binding: Binding<Visibility>,
    ) -> Result<(), AllocError>
        ensures done { OnOk result (bound_by self.new
            ≡ with_binding (bound_by self.old) «module» name ns binding) }
        ensures refused { OnErr result (bound_by self.new ≡ bound_by self.old) }
    {
        self.rows.set(module, name, ns, binding)
    }

    #[inline(always)]
    fn bind(
        &mut self,
        module: ModuleId,
        slot: Slot,
        binding: &Binding<Visibility>,
    ) -> Result<bool, AllocError> {
        self.rows.bind(module, slot, binding)
    }

    #[inline(always)]
    fn remove(&mut self, module: ModuleId, name: Name, ns: Namespace) {
        self.rows.remove(module, name, ns);
    }

    #[inline(always)]
    fn set_unnamed(
        &mut self,
        module: ModuleId,
        item: TraitId,
        vis: Visibility,
    ) -> Result<(), AllocError>
        ensures done { OnOk result (bound_by self.new
            ≡ with_unnamed (bound_by self.old) «module» item vis) }
        ensures refused { OnErr result (bound_by self.new ≡ bound_by self.old) }
    {
        self.rows.set_unnamed(module, item, vis)
    }

    #[inline(always)]
    fn set_edge(&mut self, module: ModuleId, edge: EdgeTo<Visibility>) -> Result<(), AllocError>
        ensures done { OnOk result (bound_by self.new
            ≡ with_edge (bound_by self.old) «module» edge) }
        ensures refused { OnErr result (bound_by self.new ≡ bound_by self.old) }
    {
        self.rows.set_edge(module, edge)
    }

    ghost finite = { λ t. are_sources numbered_vis t };

    ghost tied = { λ t. are_tied numbered_vis t };
}
