//! A table that keeps the names of all modules in one index.
#![tactic(auto, unfolding(crate::specs::NumberedTable::content_of))]

ghost use Rattle.std.specs.Prelude.{◌≡◌, ◌↔◌, IsTrue, IsFalse, Some, true, false, is_none, OnOk, OnErr, IfOk, IfSome, option_copied};
ghost use Rattle.std.specs.List.{zip};
ghost use Rattle.def_tables.specs.Lists.{HaveOnce, lists_of};
ghost use Rattle.def_tables.specs.Places.{AreListed, AreStrangers, is_own_place, name_of};
ghost use Rattle.def_bindings.specs.Puts.{if_vacant};

use crate::bound_name::BoundName;
use crate::found::Found;
use crate::indexed_vec::IndexedVec;
use crate::kept::Kept;
use crate::keyed::Keyed;
use crate::link::Link;
use crate::lists::Lists;
use crate::place::{OwnPlace, Placed};
use crate::puts::{Put, put_at, remove_at};
use def_bindings::{Binding, BindingTable, EdgeTo, NameBindings, Namespace, Slot};
use def_ids::{MapId, ModuleId, TraitId};
use std::alloc::{AllocError, Global};
use tree_ids::{Crate, Name};

/// What all names stand for in one index over modules and names, and so the unnamed traits and the
/// edges; and the names of each module in first-bound order. Of the modules of one map, which are
/// mostly all, the index holds no more than numbers. Visibilities `V` are kept as `K`: as they are, or
/// in a form that takes less room, as `VisNumber` for those of a map.
pub struct NumberedTable<V, K = V> {
    alloc: Global,
    /// The map whose modules are found by their indices, and whose bindings are kept in short.
    map: MapId,
    own: IndexedVec<OwnPlace, BoundName<V, K>>,
    others: IndexedVec<Placed<Name>, BoundName<V, K>>,
    names: Lists<Name>,
    unnamed: Keyed<TraitId, V>,
    edges: Keyed<ModuleId, Link<V>>,
    ghost apart: { AreStrangers map (zip others.keys.keys others.values.items) },
    ghost listed: { AreListed (name_of map (zip own.keys.keys own.values.items) (zip others.keys.keys others.values.items)) (lists_of names) },
    ghost once: { HaveOnce (lists_of names) },
}

impl<V: Drop, K: Drop> Drop for NumberedTable<V, K> {
    fn drop(self) {
        let NumberedTable {
            alloc: _,
            map: _,
            own: _,
            others: _,
            names: _,
            unnamed: _,
            edges: _,
        } = self;
    }
}

impl<V: Copy> NumberedTable<V> {
    ghost use Rattle.def_bindings.specs.Content.{empty};
    ghost use Rattle.def_tables.specs.Kept.{as_it_is};
    ghost use Rattle.def_tables.specs.NumberedTable.{content_of};

    /// A table with nothing in it, which takes the least room for modules of the map that is bound in
    /// first.
    pub fn new(alloc: Global) -> Result<Self, AllocError>
        ensures { IfOk result (λ table. content_of as_it_is table ≡ empty) }
    {
        let map = MapId {
            krate: Crate(0),
            block: None,
        };
        NumberedTable::of_map(alloc, map)
    }
}

impl<V: Copy, K: Kept<V>> NumberedTable<V, K> {
    ghost use Rattle.std.specs.Prelude.{◌<◌, ◌^◌, ◌||◌, length, slice_get};
    ghost use Rattle.def_bindings.specs.declared.bindings.Slot.TheVariants.{Named};
    ghost use Rattle.def_bindings.specs.Content.{empty};
    ghost use Rattle.def_ids.specs.Ids.{is_same_map};
    ghost use Rattle.def_tables.specs.Found.{found_as};
    ghost use Rattle.def_tables.specs.NumberedTable.{all_edges, content_of, other_rows, own_rows};
    ghost use Rattle.def_bindings.specs.Puts.{written};

    /// A table with nothing in it, which takes the least room for modules of this map, and serves those
    /// of any other as well.
    pub fn of_map(alloc: Global, map: MapId) -> Result<Self, AllocError>
        ensures { IfOk result (λ table. content_of K.meaning table ≡ empty) }
    {
        Ok(NumberedTable {
            alloc,
            map,
            own: IndexedVec::new(alloc),
            others: IndexedVec::new(alloc),
            names: Lists::new(alloc),
            unnamed: Keyed::new(alloc),
            edges: Keyed::new(alloc),
        })
    }

    /// Makes room for more names and edges, so that as many are added with no copy of what is there.
    pub fn reserve(&mut self, names: usize, edges: usize) -> Result<(), AllocError>
        ensures { content_of K.meaning self.new ≡ content_of K.meaning self.old }
    {
        self.own.reserve(names)?;
        self.edges.reserve(edges)
    }

    /// The names of a module, in first-bound order.
    pub fn names(&self, module: ModuleId) -> &[Name]
        ensures { result.now ≡ (content_of K.meaning self.now).names «module» }
    {
        self.names.of(module)
    }

    /// What a name of a module stands for, if it stands for something.
    fn bound_at(&self, module: ModuleId, name: Name) -> Option<&BoundName<V, K>>
        ensures { option_copied result ≡ name_of self.now.map (own_rows self.now) (other_rows self.now) «module» name }
    {
        if module.map == self.map {
            self.own.get(OwnPlace {
                index: module.index,
                name,
            })
        } else {
            self.others.get(Placed {
                at: module,
                key: name,
            })
        }
    }

    /// The same. Names that are read in the order in which they were bound mostly follow each other among
    /// all: `near` is where this one is looked for first, and then where the next one is.
    #[inline(always)]
    fn bound_at_near(
        &self,
        module: ModuleId,
        name: Name,
        near: &mut usize,
    ) -> Option<&BoundName<V, K>>
        ensures { option_copied result ≡ name_of self.now.map (own_rows self.now) (other_rows self.now) «module» name }
    {
        if module.map != self.map {
            return self.bound_at(module, name);
        }
        let place = OwnPlace {
            index: module.index,
            name,
        };
        self.own.get_near(place, near)
    }

    /// What a name of a module stands for, found once and asked several times.
    #[inline(always)]
    pub fn found(&self, module: ModuleId, name: Name) -> Option<Found<'_, V, K>>
        ensures { found_as K.meaning result ≡ (content_of K.meaning self.now).binding «module» name }
    {
        match self.bound_at(module, name) {
            Some(bound) => Some(Found {
                map: self.map,
                bound,
            }),
            None => None,
        }
    }

    /// The same, of names that are read in the order in which they were bound: `near` begins with 0, and
    /// says from name to name where the next one is looked for first.
    #[inline(always)]
    pub fn found_near(
        &self,
        module: ModuleId,
        name: Name,
        near: &mut usize,
    ) -> Option<Found<'_, V, K>>
        ensures { found_as K.meaning result ≡ (content_of K.meaning self.now).binding «module» name }
    {
        match self.bound_at_near(module, name, near) {
            Some(bound) => Some(Found {
                map: self.map,
                bound,
            }),
            None => None,
        }
    }

    /// Puts a binding in a module of the table's map, and answers whether it did. A refused call changes
    /// nothing.
    #[inline(always)]
    fn put_own(&mut self, put: Put, binding: &Binding<V>) -> Result<bool, AllocError>
        requires { is_same_map put.at.map self.now.map ≡ true }
        ensures done { IfOk result (λ wrote.
            (wrote ≡ (put.over || is_none ((content_of K.meaning self.old).binding put.at put.name put.ns)))
            × (content_of K.meaning self.new
            ≡ written (content_of K.meaning self.old) put.at (Named put.name put.ns) (if_vacant wrote binding.now))) }
        ensures refused { OnErr result (content_of K.meaning self.new ≡ content_of K.meaning self.old) }
    {
        let place = OwnPlace {
            index: put.at.index,
            name: put.name,
        };
        put_at(
            self.alloc,
            self.map,
            &mut self.own,
            &mut self.names,
            place,
            put,
            binding,
        )
    }

    /// Puts a binding in a module of another map, and answers whether it did. A refused call changes
    /// nothing.
    fn put_other(&mut self, put: Put, binding: &Binding<V>) -> Result<bool, AllocError>
        requires { is_same_map put.at.map self.now.map ≡ false }
        ensures done { IfOk result (λ wrote.
            (wrote ≡ (put.over || is_none ((content_of K.meaning self.old).binding put.at put.name put.ns)))
            × (content_of K.meaning self.new
            ≡ written (content_of K.meaning self.old) put.at (Named put.name put.ns) (if_vacant wrote binding.now))) }
        ensures refused { OnErr result (content_of K.meaning self.new ≡ content_of K.meaning self.old) }
    {
        let place = Placed {
            at: put.at,
            key: put.name,
        };
        put_at(
            self.alloc,
            self.map,
            &mut self.others,
            &mut self.names,
            place,
            put,
            binding,
        )
    }

    /// Takes a map for the table's where nothing is bound yet, and answers whether it did.
    fn adopt(&mut self, map: MapId) -> bool
        ensures content { content_of K.meaning self.new ≡ content_of K.meaning self.old }
        ensures taken { IsTrue result → self.new.map ≡ map }
        ensures left { IsFalse result → self.new.map ≡ self.old.map }
    {
        if !self.own.is_empty() {
            return false;
        }
        if !self.others.is_empty() {
            return false;
        }
        self.map = map;
        true
    }

    /// Puts a binding in a module of a map that is not the table's, and answers whether it did. Where
    /// nothing is bound yet the table takes that map for its own. A refused call changes nothing.
    #[inline(never)]
    fn put_elsewhere(&mut self, put: Put, binding: &Binding<V>) -> Result<bool, AllocError>
        requires { is_same_map put.at.map self.now.map ≡ false }
        ensures done { IfOk result (λ wrote.
            (wrote ≡ (put.over || is_none ((content_of K.meaning self.old).binding put.at put.name put.ns)))
            × (content_of K.meaning self.new
            ≡ written (content_of K.meaning self.old) put.at (Named put.name put.ns) (if_vacant wrote binding.now))) }
        ensures refused { OnErr result (content_of K.meaning self.new ≡ content_of K.meaning self.old) }
    {
        if self.adopt(put.at.map) {
            self.put_own(put, binding)
        } else {
            self.put_other(put, binding)
        }
    }

    /// Puts a binding, and answers whether it did. A refused call changes nothing.
    #[inline(always)]
    fn put(&mut self, put: Put, binding: &Binding<V>) -> Result<bool, AllocError>
        ensures done { IfOk result (λ wrote.
            (wrote ≡ (put.over || is_none ((content_of K.meaning self.old).binding put.at put.name put.ns)))
            × (content_of K.meaning self.new
            ≡ written (content_of K.meaning self.old) put.at (Named put.name put.ns) (if_vacant wrote binding.now))) }
        ensures refused { OnErr result (content_of K.meaning self.new ≡ content_of K.meaning self.old) }
    {
        if put.at.map == self.map {
            self.put_own(put, binding)
        } else {
            self.put_elsewhere(put, binding)
        }
    }

    /// Whether the table has nothing in it.
    pub fn is_empty(&self) -> bool
        ensures { IsTrue result ↔ (content_of K.meaning self.now ≡ empty) }
    {
        if !self.own.is_empty() {
            return false;
        }
        if !self.others.is_empty() {
            return false;
        }
        if !self.unnamed.is_empty() {
            return false;
        }
        self.edges.is_empty()
    }

    /// How many edges there are.
    pub fn edge_count(&self) -> usize
        ensures { result ≡ length (all_edges self.now) }
    {
        self.edges.len()
    }

    /// The edge with this number among all in order of recording, and its source.
    pub fn numbered_edge(&self, number: usize) -> Option<(ModuleId, EdgeTo<V>)>
        ensures edge { result ≡ slice_get (all_edges self.now) number }
        ensures few { length (all_edges self.now) < 2 ^ 64 }
    {
        match self.edges.numbered(number) {
            Some((source, importer, link)) => Some((
                source,
                EdgeTo {
                    importer,
                    vis: link.vis,
                    glob: link.glob,
                },
            )),
            None => None,
        }
    }
}

impl<V: Copy, K: Kept<V>> BindingTable for NumberedTable<V, K> {
    ghost use Rattle.def_bindings.specs.Content.{with_binding, with_unnamed, with_edge};
    ghost use Rattle.def_tables.specs.NumberedTable.{content_of};
    ghost use Rattle.def_tables.specs.NumberedTableLaws.{modules_of, are_sources, are_tied};

    type Vis = V;

    ghost content = { content_of K.meaning };

    ghost sources = { λ t. modules_of t.edges.entries.entries };

    fn binding(&self, module: ModuleId, name: Name, ns: Namespace) -> Option<Binding<V>> {
        match self.bound_at(module, name) {
            Some(bound) => bound.get(self.map, ns),
            None => None,
        }
    }

    #[inline(always)]
    fn visibility_near(
        &self,
        module: ModuleId,
        name: Name,
        ns: Namespace,
        near: &mut usize,
    ) -> Option<V> {
        match self.bound_at_near(module, name, near) {
            Some(bound) => bound.visibility(self.map, ns),
            None => None,
        }
    }

    fn bindings(&self, module: ModuleId, name: Name) -> NameBindings<V> {
        match self.bound_at(module, name) {
            Some(bound) => bound.all(self.map),
            None => NameBindings::unbound(),
        }
    }

    fn module_at(&self, module: ModuleId, name: Name) -> Option<ModuleId> {
        match self.bound_at(module, name) {
            Some(bound) => bound.module(self.map),
            None => None,
        }
    }

    fn name_at(&self, module: ModuleId, index: usize) -> Option<Name> {
        self.names.at(module, index)
    }

    fn unnamed_at(&self, module: ModuleId, index: usize) -> Option<(TraitId, V)> {
        self.unnamed.at(module, index)
    }

    fn unnamed_vis(&self, module: ModuleId, item: TraitId) -> Option<V> {
        self.unnamed.get(module, item)
    }

    fn edge_at(&self, module: ModuleId, index: usize) -> Option<EdgeTo<V>> {
        match self.edges.at(module, index) {
            Some((importer, link)) => Some(EdgeTo {
                importer,
                vis: link.vis,
                glob: link.glob,
            }),
            None => None,
        }
    }

    #[inline(always)]
    fn has_edges(&self, module: ModuleId) -> bool {
        self.edges.has(module)
    }

    fn edge_to(&self, module: ModuleId, importer: ModuleId) -> Option<EdgeTo<V>> {
        match self.edges.get(module, importer) {
            Some(link) => Some(EdgeTo {
                importer,
                vis: link.vis,
                glob: link.glob,
            }),
            None => None,
        }
    }

    fn expect_names(&mut self, module: ModuleId, names: usize) {
        self.names.expect(module, names);
    }

    fn set(
        &mut self,
        module: ModuleId,
        name: Name,
        ns: Namespace,
        binding: Binding<V>,
    ) -> Result<(), AllocError>
        ensures done { OnOk result (content_of K.meaning self.new
            ≡ with_binding (content_of K.meaning self.old) «module» name ns binding) }
        ensures refused { OnErr result (content_of K.meaning self.new ≡ content_of K.meaning self.old) }
    {
        let put = Put {
            at: module,
            name,
            ns,
            over: true,
        };
        self.put(put, &binding)?;
        Ok(())
    }

    fn bind(
        &mut self,
        module: ModuleId,
        slot: Slot,
        binding: &Binding<V>,
    ) -> Result<bool, AllocError> {
        match slot {
            Slot::Named(name, ns) => {
                let put = Put {
                    at: module,
                    name,
                    ns,
                    over: false,
                };
                self.put(put, binding)
            }
            Slot::Unnamed(item) => match self.unnamed_vis(module, item) {
                Some(_) => Ok(false),
                None => {
                    self.set_unnamed(module, item, binding.vis)?;
                    Ok(true)
                }
            },
        }
    }

    fn remove(&mut self, module: ModuleId, name: Name, ns: Namespace) {
        if module.map == self.map {
            let place = OwnPlace {
                index: module.index,
                name,
            };
            remove_at(
                self.map,
                &mut self.own,
                &mut self.names,
                place,
                module,
                name,
                ns,
            )
        } else {
            let place = Placed {
                at: module,
                key: name,
            };
            remove_at(
                self.map,
                &mut self.others,
                &mut self.names,
                place,
                module,
                name,
                ns,
            )
        }
    }

    fn set_unnamed(&mut self, module: ModuleId, item: TraitId, vis: V) -> Result<(), AllocError>
        ensures done { OnOk result (content_of K.meaning self.new
            ≡ with_unnamed (content_of K.meaning self.old) «module» item vis) }
        ensures refused { OnErr result (content_of K.meaning self.new ≡ content_of K.meaning self.old) }
    {
        self.unnamed.set(module, item, vis)
    }

    fn set_edge(&mut self, module: ModuleId, edge: EdgeTo<V>) -> Result<(), AllocError>
        ensures done { OnOk result (content_of K.meaning self.new
            ≡ with_edge (content_of K.meaning self.old) «module» edge) }
        ensures refused { OnErr result (content_of K.meaning self.new ≡ content_of K.meaning self.old) }
    {
        let link = Link {
            vis: edge.vis,
            glob: edge.glob,
        };
        self.edges.set(module, edge.importer, link)
    }

    ghost finite = { are_sources K.meaning };

    ghost tied = { are_tied K.meaning };
}
