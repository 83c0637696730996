//! A table that keeps one ordered map for each module.
ghost use Rattle.std.specs.Prelude.{◌≡◌, is_some, true, IfOk, OnOk, OnErr};

use crate::row::Row;
use def_bindings::{Binding, BindingTable, EdgeTo, NameBindings, Namespace};
use def_ids::{ModuleId, TraitId};
use indexmap::IndexMap;
use std::alloc::{AllocError, Global};
use tree_ids::Name;

/// A row for each module that has something.
pub struct ScopeTable<V> {
    alloc: Global,
    rows: IndexMap<ModuleId, Row<V>>,
}

impl<V: Drop> Drop for ScopeTable<V> {
    fn drop(self) {
        let ScopeTable { alloc: _, rows: _ } = self;
    }
}

impl<V: Copy> ScopeTable<V> {
    ghost use Rattle.def_bindings.specs.Content.{empty};
    ghost use Rattle.def_tables.specs.ScopeTable.{rows_of, content_of};

    /// A table with nothing in it.
    pub fn new(alloc: Global) -> Result<Self, AllocError>
        ensures { IfOk result (λ table. content_of table ≡ empty) }
    {
        Ok(ScopeTable {
            alloc,
            rows: IndexMap::new(alloc),
        })
    }

    /// Makes a module's row, where it has none.
    fn reserve(&mut self, module: ModuleId) -> Result<(), AllocError>
        ensures same { content_of self.new ≡ content_of self.old }
        ensures there { OnOk result (is_some (rows_of self.new «module») ≡ true) }
    {
        if !self.rows.contains_key(&module) {
            self.rows.insert(module, Row::new(self.alloc))?;
        }
        Ok(())
    }
}

impl<V: Copy> BindingTable for ScopeTable<V> {
    ghost use Rattle.indexmap.specs.IndexMap.{keys};
    ghost use Rattle.def_bindings.specs.Content.{with_binding, with_edge};
    ghost use Rattle.def_tables.specs.ScopeTable.{content_of};
    ghost use Rattle.def_tables.specs.ScopeTableLaws.{are_sources, are_tied};

    type Vis = V;

    ghost content = { content_of };

    ghost sources = { λ t. keys t.rows };

    fn binding(&self, module: ModuleId, name: Name, ns: Namespace) -> Option<Binding<V>> {
        let row = self.rows.get(&module)?;
        row.binding(name, ns)
    }

    fn bindings(&self, module: ModuleId, name: Name) -> NameBindings<V> {
        match self.rows.get(&module) {
            Some(row) => row.bindings(name),
            None => NameBindings::unbound(),
        }
    }

    fn name_at(&self, module: ModuleId, index: usize) -> Option<Name> {
        match self.rows.get(&module) {
            Some(row) => row.name_at(index),
            None => None,
        }
    }

    fn unnamed_at(&self, module: ModuleId, index: usize) -> Option<(TraitId, V)> {
        match self.rows.get(&module) {
            Some(row) => row.unnamed_at(index),
            None => None,
        }
    }

    fn unnamed_vis(&self, module: ModuleId, item: TraitId) -> Option<V> {
        match self.rows.get(&module) {
            Some(row) => row.unnamed_vis(item),
            None => None,
        }
    }

    fn edge_at(&self, module: ModuleId, index: usize) -> Option<EdgeTo<V>> {
        match self.rows.get(&module) {
            Some(row) => row.edge_at(index),
            None => None,
        }
    }

    fn edge_to(&self, module: ModuleId, importer: ModuleId) -> Option<EdgeTo<V>> {
        match self.rows.get(&module) {
            Some(row) => row.edge_to(importer),
            None => None,
        }
    }

    fn set(
        &mut self,
        module: ModuleId,
        name: Name,
        ns: Namespace,
        binding: Binding<V>,
    ) -> Result<(), AllocError>
        ensures done { OnOk result (content_of self.new
            ≡ with_binding (content_of self.old) «module» name ns binding) }
        ensures refused { OnErr result (content_of self.new ≡ content_of self.old) }
    {
        self.reserve(module)?;
        match self.rows.get_mut(&module) {
            Some(row) => row.set(name, ns, binding),
            None => Ok(()),
        }
    }

    fn remove(&mut self, module: ModuleId, name: Name, ns: Namespace) {
        match self.rows.get_mut(&module) {
            Some(row) => row.remove(name, ns),
            None => (),
        }
    }

    fn set_unnamed(&mut self, module: ModuleId, item: TraitId, vis: V) -> Result<(), AllocError> {
        self.reserve(module)?;
        match self.rows.get_mut(&module) {
            Some(row) => row.set_unnamed(item, vis),
            None => Ok(()),
        }
    }

    fn set_edge(&mut self, module: ModuleId, edge: EdgeTo<V>) -> Result<(), AllocError>
        ensures done { OnOk result (content_of self.new
            ≡ with_edge (content_of self.old) «module» edge) }
        ensures refused { OnErr result (content_of self.new ≡ content_of self.old) }
    {
        self.reserve(module)?;
        match self.rows.get_mut(&module) {
            Some(row) => row.set_edge(edge),
            None => Ok(()),
        }
    }

    ghost finite = { are_sources };

    ghost tied = { are_tied };
}
