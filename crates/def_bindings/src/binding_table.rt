//! Tables of bindings.
ghost use Rattle.std.specs.Prelude.{◌≡◌, ◌<◌, ◌^◌, List, is_none, is_some, length, option_map, slice_get, IfOk, OnOk, OnErr};
ghost use Rattle.def_ids.specs.declared.ids.ModuleId.{ModuleId};
ghost use Rattle.def_bindings.specs.Content.{Content, with_binding, without_binding, with_unnamed, with_edge, vis_of, AreSources, AreTied};
ghost use Rattle.def_bindings.specs.NameBindings.{bound_in, module_bound};
ghost use Rattle.def_bindings.specs.declared.bindings.Namespace.TheVariants.{Types};
ghost use Rattle.def_bindings.specs.Puts.{edge_to, held, if_vacant, written};

use crate::bindings::{Binding, EdgeTo, Namespace, Slot};
use crate::name_bindings::NameBindings;
use def_ids::{ModuleId, TraitId};
use std::alloc::AllocError;
use tree_ids::Name;

/// Bindings, names, unnamed traits and glob edges by module, however they are kept. What is read is
/// copied. A table that finds all bindings of a name, an unnamed trait or an edge by one look-up, that
/// knows without one that it has no edges, or that binds where it has looked, has bodies of its own for
/// `visibility_near`, `bindings`, `module_at`, `unnamed_vis`, `has_edges`, `edge_to` and `bind`, and one
/// that grows its lists for `expect_names`.
pub trait BindingTable {
    type Vis: Copy;

    ghost content: { Self → Content Self.Vis };

    /// Modules that hold every edge between them.
    ghost sources: { Self → List ModuleId };

    fn binding(&self, module: ModuleId, name: Name, ns: Namespace) -> Option<Binding<Self::Vis>>
        ensures { result ≡ (content self.now).binding «module» name ns };

    /// The visibility of what a name stands for in a namespace. Names that are read in the order in which
    /// they were bound may be found faster: `near` begins with 0, and says from name to name where a table
    /// looks first. A table may ignore it.
    fn visibility_near(
        &self,
        module: ModuleId,
        name: Name,
        ns: Namespace,
        _near: &mut usize,
    ) -> Option<Self::Vis>
        ensures { result ≡ option_map (λ b. b.vis) ((content self.now).binding «module» name ns) }
    {
        match self.binding(module, name, ns) {
            Some(binding) => Some(binding.vis),
            None => None,
        }
    }

    /// What a name stands for in each namespace.
    fn bindings(&self, module: ModuleId, name: Name) -> NameBindings<Self::Vis>
        ensures { bound_in result ≡ (content self.now).binding «module» name }
    {
        NameBindings {
            types: self.binding(module, name, Namespace::Types),
            values: self.binding(module, name, Namespace::Values),
            macros: self.binding(module, name, Namespace::Macros),
        }
    }

    /// The module that a name is bound to in types, if it is bound to one.
    fn module_at(&self, module: ModuleId, name: Name) -> Option<ModuleId>
        ensures { result ≡ module_bound ((content self.now).binding «module» name Types) }
    {
        match self.binding(module, name, Namespace::Types) {
            Some(binding) => binding.def.as_module(),
            None => None,
        }
    }

    /// The name at this place of a module's names, in first-bound order.
    fn name_at(&self, module: ModuleId, index: usize) -> Option<Name>
        ensures name { result ≡ slice_get ((content self.now).names «module») index }
        ensures few { length ((content self.now).names «module») < 2 ^ 64 };

    fn unnamed_at(&self, module: ModuleId, index: usize) -> Option<(TraitId, Self::Vis)>
        ensures item { result ≡ slice_get ((content self.now).unnamed «module») index }
        ensures few { length ((content self.now).unnamed «module») < 2 ^ 64 };

    /// The visibility of an unnamed trait, where the module has it.
    fn unnamed_vis(&self, module: ModuleId, item: TraitId) -> Option<Self::Vis>
        ensures { result ≡ vis_of ((content self.now).unnamed «module») item }
    {
        let mut index = 0;
        'items: while let Some(found) = self.unnamed_at(module, index) {
            if item == found.0 {
                return Some(found.1);
            }
            index += 1;
        }
        None
    }

    fn edge_at(&self, module: ModuleId, index: usize) -> Option<EdgeTo<Self::Vis>>
        ensures edge { result ≡ slice_get ((content self.now).edges «module») index }
        ensures few { length ((content self.now).edges «module») < 2 ^ 64 };

    /// Whether a module has an edge.
    fn has_edges(&self, module: ModuleId) -> bool
        ensures { result ≡ is_some (slice_get ((content self.now).edges «module») 0) }
    {
        self.edge_at(module, 0).is_some()
    }

    /// The edge to an importer, where the module has one.
    fn edge_to(&self, module: ModuleId, importer: ModuleId) -> Option<EdgeTo<Self::Vis>>
        ensures { result ≡ edge_to ((content self.now).edges «module») importer }
    {
        let mut index = 0;
        'edges: while let Some(edge) = self.edge_at(module, index) {
            if edge.importer == importer {
                return Some(edge);
            }
            index += 1;
        }
        None
    }

    /// Says how many names a module without names may get, so that a table can make room for them when
    /// the first one comes. A table may ignore it.
    fn expect_names(&mut self, _module: ModuleId, _names: usize)
        ensures { content self.new ≡ content self.old }
    {}

    fn set(
        &mut self,
        module: ModuleId,
        name: Name,
        ns: Namespace,
        binding: Binding<Self::Vis>,
    ) -> Result<(), AllocError>
        ensures done { OnOk result (content self.new
            ≡ with_binding (content self.old) «module» name ns binding) }
        ensures refused { OnErr result (content self.new ≡ content self.old) };

    /// Binds a slot where nothing is bound, and answers whether it was vacant. A refused call changes
    /// nothing.
    fn bind(
        &mut self,
        module: ModuleId,
        slot: Slot,
        binding: &Binding<Self::Vis>,
    ) -> Result<bool, AllocError>
        ensures done { IfOk result (λ vacant. let c = content self.old in
            (vacant ≡ is_none (held c «module» slot))
            × (content self.new ≡ written c «module» slot (if_vacant vacant binding.now))) }
        ensures refused { OnErr result (content self.new ≡ content self.old) }
    {
        match slot {
            Slot::Named(name, ns) => {
                if self.binding(module, name, ns).is_some() {
                    return Ok(false);
                }
                self.set(module, name, ns, *binding)?;
            }
            Slot::Unnamed(item) => {
                if self.unnamed_vis(module, item).is_some() {
                    return Ok(false);
                }
                self.set_unnamed(module, item, binding.vis)?;
            }
        }
        Ok(true)
    }

    fn remove(&mut self, module: ModuleId, name: Name, ns: Namespace)
        ensures { content self.new ≡ without_binding (content self.old) «module» name ns };

    fn set_unnamed(
        &mut self,
        module: ModuleId,
        item: TraitId,
        vis: Self::Vis,
    ) -> Result<(), AllocError>
        ensures done { OnOk result (content self.new
            ≡ with_unnamed (content self.old) «module» item vis) }
        ensures refused { OnErr result (content self.new ≡ content self.old) };

    /// Adds an edge, or replaces the one with its importer.
    fn set_edge(&mut self, module: ModuleId, edge: EdgeTo<Self::Vis>) -> Result<(), AllocError>
        ensures done { OnOk result (content self.new ≡ with_edge (content self.old) «module» edge) }
        ensures refused { OnErr result (content self.new ≡ content self.old) };

    ghost finite: { (t : Self) → AreSources (content t) (sources t) };

    ghost tied: { (t : Self) → AreTied (content t).binding (content t).names };
}
