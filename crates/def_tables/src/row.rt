//! What one module binds.
ghost use Rattle.std.specs.Prelude.{◌≡◌, ◌<◌, ◌^◌, length, slice_get, OnOk, OnErr, Some, None, true};
ghost use Rattle.std.specs.List.{IsDistinct};
ghost use Rattle.indexmap.specs.IndexMap.{insert_entry, keys};
ghost use Rattle.def_ids.specs.Ids.{is_same_module};
ghost use Rattle.def_bindings.specs.Content.{is_name, is_trait, vis_of};
ghost use Rattle.def_tables.specs.Link.{link_of};
ghost use Rattle.def_bindings.specs.NameBindings.{with_bound};
ghost use Rattle.def_bindings.specs.Puts.{edge_to};
ghost use Rattle.def_tables.specs.RowEntries.{bindings_at, bindings_left, are_bound};

use crate::link::Link;
use def_bindings::{Binding, EdgeTo, NameBindings, Namespace};
use def_ids::{ModuleId, TraitId};
use indexmap::IndexMap;
use std::alloc::{AllocError, Global};
use tree_ids::Name;

/// The names, unnamed traits and edges of one module, each in order. A name that is there is bound.
#[derive(Drop)]
pub struct Row<V> {
    pub names: IndexMap<Name, NameBindings<V>>,
    pub unnamed: IndexMap<TraitId, V>,
    pub edges: IndexMap<ModuleId, Link<V>>,
    ghost bound: { are_bound names.entries ≡ true },
}

impl<V: Copy> Row<V> {
    ghost use Rattle.def_tables.specs.Row.{row_binding, row_names, row_unnamed, row_edges, SameBindings, SameUnnamed, SameEdges, IsNew};

    /// A row with nothing in it.
    pub fn new(alloc: Global) -> Self
        ensures { IsNew result }
    {
        Row {
            names: IndexMap::new(alloc),
            unnamed: IndexMap::new(alloc),
            edges: IndexMap::new(alloc),
        }
    }

    /// What a name is bound to in all namespaces.
    pub fn bindings(&self, name: Name) -> NameBindings<V>
        ensures { result ≡ bindings_at self.now.names.entries name }
    {
        match self.names.get(&name) {
            Some(bindings) => *bindings,
            None => NameBindings::unbound(),
        }
    }

    /// What a name is bound to in a namespace.
    pub fn binding(&self, name: Name, ns: Namespace) -> Option<Binding<V>>
        ensures { result ≡ row_binding self.now name ns }
    {
        let bindings = self.names.get(&name)?;
        bindings.get(ns).copied()
    }

    /// The name at this place, in first-bound order.
    pub fn name_at(&self, index: usize) -> Option<Name>
        ensures name { result ≡ slice_get (row_names self.now) index }
        ensures few { length (row_names self.now) < 2 ^ 64 }
    {
        let _ = self.names.len();
        let (name, _) = self.names.get_index(index)?;
        Some(*name)
    }

    /// The unnamed trait at this place, with its visibility.
    pub fn unnamed_at(&self, index: usize) -> Option<(TraitId, V)>
        ensures item { result ≡ slice_get (row_unnamed self.now) index }
        ensures few { length (row_unnamed self.now) < 2 ^ 64 }
    {
        let _ = self.unnamed.len();
        let (item, vis) = self.unnamed.get_index(index)?;
        Some((*item, *vis))
    }

    /// The visibility of an unnamed trait, where it is there.
    pub fn unnamed_vis(&self, item: TraitId) -> Option<V>
        ensures { result ≡ vis_of (row_unnamed self.now) item }
    {
        self.unnamed.get(&item).copied()
    }

    /// The edge at this place, in order of recording.
    pub fn edge_at(&self, index: usize) -> Option<EdgeTo<V>>
        ensures edge { result ≡ slice_get (row_edges self.now) index }
        ensures few { length (row_edges self.now) < 2 ^ 64 }
    {
        let _ = self.edges.len();
        let (importer, link) = self.edges.get_index(index)?;
        Some(EdgeTo {
            importer: *importer,
            vis: link.vis,
            glob: link.glob,
        })
    }

    /// The edge to an importer, where there is one.
    pub fn edge_to(&self, importer: ModuleId) -> Option<EdgeTo<V>>
        ensures { result ≡ edge_to (row_edges self.now) importer }
    {
        match self.edges.get(&importer) {
            Some(link) => Some(EdgeTo {
                importer,
                vis: link.vis,
                glob: link.glob,
            }),
            None => None,
        }
    }

    /// Binds a name in a namespace.
    pub fn set(&mut self, name: Name, ns: Namespace, binding: Binding<V>) -> Result<(), AllocError>
        ensures done { OnOk result (self.new.names.entries
            ≡ insert_entry is_name self.old.names.entries name
            (with_bound (bindings_at self.old.names.entries name) ns (Some binding))) }
        ensures refused { OnErr result (SameBindings self.old self.new) }
        ensures unnamed { SameUnnamed self.old self.new }
        ensures edges { SameEdges self.old self.new }
    {
        let bindings = self.bindings(name).with(ns, Some(binding));
        self.names.insert(name, bindings)?;
        Ok(())
    }

    /// Takes a binding out, and with the last one its name.
    pub fn remove(&mut self, name: Name, ns: Namespace)
        ensures bindings { self.new.names.entries ≡ bindings_left self.old.names.entries name ns }
        ensures distinct { IsDistinct is_name (row_names self.old) }
        ensures unnamed { SameUnnamed self.old self.new }
        ensures edges { SameEdges self.old self.new }
    {
        let _ = self.names.len();
        let bindings = self.bindings(name).with(ns, None);
        if bindings.is_unbound() {
            let _ = self.names.shift_remove(&name);
        } else {
            let there = self.names.get_mut(&name);
            if let Some(there) = there {
                *there = bindings;
            }
        }
    }

    /// Sets the visibility of an unnamed trait, in its place or last.
    pub fn set_unnamed(&mut self, item: TraitId, vis: V) -> Result<(), AllocError>
        ensures done { OnOk result (self.new.unnamed.entries
            ≡ insert_entry is_trait self.old.unnamed.entries item vis) }
        ensures refused { OnErr result (SameUnnamed self.old self.new) }
        ensures bindings { SameBindings self.old self.new }
        ensures edges { SameEdges self.old self.new }
    {
        self.unnamed.insert(item, vis)?;
        Ok(())
    }

    /// Adds an edge, or replaces the one with its importer.
    pub fn set_edge(&mut self, edge: EdgeTo<V>) -> Result<(), AllocError>
        ensures done { OnOk result (self.new.edges.entries
            ≡ insert_entry is_same_module self.old.edges.entries edge.importer (link_of edge)) }
        ensures refused { OnErr result (SameEdges self.old self.new) }
        ensures distinct { IsDistinct is_same_module (keys self.old.edges) }
        ensures bindings { SameBindings self.old self.new }
        ensures unnamed { SameUnnamed self.old self.new }
    {
        let _ = self.edges.len();
        self.edges.insert(
            edge.importer,
            Link {
                vis: edge.vis,
                glob: edge.glob,
            },
        )?;
        Ok(())
    }
}
