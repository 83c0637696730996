//! A table that has the required calls alone, and hands them on.
#![tactic(auto)]

ghost use Rattle.std.specs.Prelude.{◌≡◌, OnErr, OnOk};
ghost use Rattle.def_bindings.specs.Content.{with_binding, with_edge, with_unnamed};
ghost use Rattle.def_tables.specs.ScopeTable.{content_of};

use def_bindings::{Binding, BindingTable, EdgeTo, Namespace, Visibility};
use def_ids::{ModuleId, TraitId};
use def_tables::ScopeTable;
use item_tree::Name;
use std::alloc::AllocError;

/// A table whose `bindings`, `unnamed_vis` and `edge_to` are those that every table has.
#[derive(Drop)]
pub struct PlainTable {
    pub table: ScopeTable<Visibility>,
}

impl BindingTable for PlainTable {
    ghost use Rattle.indexmap.specs.IndexMap.{keys};
    ghost use Rattle.def_tables.specs.ScopeTable.{content_of};
    ghost use Rattle.def_tables.specs.ScopeTableLaws.{are_sources, are_tied};

    type Vis = Visibility;

    ghost content = { λ t. content_of t.table };

    ghost sources = { λ t. keys t.table.rows };

    fn binding(&self, module: ModuleId, name: Name, ns: Namespace) -> Option<Binding<Visibility>> {
        self.table.binding(module, name, ns)
    }

    fn name_at(&self, module: ModuleId, index: usize) -> Option<Name> {
        self.table.name_at(module, index)
    }

    fn unnamed_at(&self, module: ModuleId, index: usize) -> Option<(TraitId, Visibility)> {
        self.table.unnamed_at(module, index)
    }

    fn edge_at(&self, module: ModuleId, index: usize) -> Option<EdgeTo<Visibility>> {
        self.table.edge_at(module, index)
    }

    fn set(
        &mut self,
        module: ModuleId,
        name: Name,
        ns: Namespace,
        binding: Binding<Visibility>,
    ) -> Result<(), AllocError>
        ensures done { OnOk result (content_of self.new.table
            ≡ with_binding (content_of self.old.table) «module» name ns binding) }
        ensures refused { OnErr result (content_of self.new.table ≡ content_of self.old.table) }
    {
        self.table.set(module, name, ns, binding)
    }

    fn remove(&mut self, module: ModuleId, name: Name, ns: Namespace) {
        self.table.remove(module, name, ns);
    }

    fn set_unnamed(
        &mut self,
        module: ModuleId,
        item: TraitId,
        vis: Visibility,
    ) -> Result<(), AllocError>
        ensures done { OnOk result (content_of self.new.table
            ≡ with_unnamed (content_of self.old.table) «module» item vis) }
        ensures refused { OnErr result (content_of self.new.table ≡ content_of self.old.table) }
    {
        self.table.set_unnamed(module, item, vis)
    }

    fn set_edge(&mut self, module: ModuleId, edge: EdgeTo<Visibility>) -> Result<(), AllocError>
        ensures done { OnOk result (content_of self.new.table
            ≡ with_edge (content_of self.old.table) «module» edge) }
        ensures refused { OnErr result (content_of self.new.table ≡ content_of self.old.table) }
    {
        self.table.set_edge(module, edge)
    }

    ghost finite = { λ t. are_sources t.table };

    ghost tied = { λ t. are_tied t.table };
}
