//! What one name stands for, as a numbered table keeps it.
ghost use Rattle.std.specs.Prelude.{◌≡◌, Some, None, is_some, option_map, IfOk, IsTrue, IsFalse, OnOk, OnErr};
ghost use Rattle.def_ids.specs.declared.ids.MapId.{MapId};
ghost use Rattle.def_bindings.specs.NameBindings.{bound_in, module_bound};
ghost use Rattle.def_bindings.specs.declared.bindings.Namespace.TheVariants.{Types};
ghost use Rattle.def_tables.specs.BoundName.{stands_for, with_namespace};
ghost use Rattle.def_tables.specs.Parts.{part_in};
ghost use Rattle.def_tables.specs.Short as meant;

use crate::each::Each;
use crate::kept::Kept;
use crate::part::Part;
use crate::parts::Parts;
use crate::short::{Kind, Short, Source, in_full, in_short};
use def_bindings::{Binding, NameBindings, Namespace};
use def_ids::{MapId, ModuleId};
use std::alloc::{AllocError, Global};

/// What a name stands for in a table of one map. Most names stand in one namespace alone, for a
/// definition that has a short form, and then nothing else is kept.
#[derive(Drop)]
pub enum BoundName<V, K> {
    One {
        ns: Namespace,
        kind: Kind,
        source: Source,
        idx: u32,
        def: u32,
        vis: K,
        import: u32,
    },
    Each(Box<Each<V, K>>),
}

/// A name with one binding that has a short form.
#[inline(always)]
fn one<V: Copy, K: Kept<V>>(ns: Namespace, short: Short<K>) -> BoundName<V, K>
    ensures { (map : MapId) → stands_for K.meaning map result
        ≡ with_namespace (λ n. None) ns (Some (meant.long K.meaning map short)) }
{
    BoundName::One {
        ns,
        kind: short.kind,
        source: short.source,
        idx: short.idx,
        def: short.def,
        vis: short.vis,
        import: short.import,
    }
}

/// A name with one binding that has no short form.
#[inline(never)]
fn whole<V: Copy, K: Kept<V>>(
    alloc: Global,
    ns: Namespace,
    binding: &Binding<V>,
) -> Result<BoundName<V, K>, AllocError>
    ensures { IfOk result (λ name. (map : MapId) → stands_for K.meaning map name
        ≡ with_namespace (λ n. None) ns (Some binding.now)) }
{
    let part = Part::Whole(Box::new(alloc, *binding)?);
    let mut parts = Parts::vacant();
    parts.put(ns, part);
    Ok(BoundName::Each(Box::new(alloc, Each { parts })?))
}

/// A name with a binding in each of two namespaces.
#[inline(never)]
fn both<V: Copy, K: Kept<V>>(
    alloc: Global,
    map: MapId,
    own: Namespace,
    first: Short<K>,
    ns: Namespace,
    binding: &Binding<V>,
) -> Result<BoundName<V, K>, AllocError>
    ensures { IfOk result (λ name. stands_for K.meaning map name
        ≡ with_namespace (with_namespace (λ n. None) own (Some (meant.long K.meaning map first))) ns (Some binding.now)) }
{
    let second = Part::of(alloc, map, binding)?;
    let mut parts = Parts::vacant();
    parts.put(own, Part::Numbers(first));
    parts.put(ns, second);
    Ok(BoundName::Each(Box::new(alloc, Each { parts })?))
}

impl<V: Copy, K: Kept<V>> BoundName<V, K> {
    /// A name with one binding.
    #[inline(always)]
    pub fn of(
        alloc: Global,
        map: MapId,
        ns: Namespace,
        binding: &Binding<V>,
    ) -> Result<Self, AllocError>
        ensures { IfOk result (λ name. stands_for K.meaning map name ≡ with_namespace (λ n. None) ns (Some binding.now)) }
    {
        match in_short(map, binding) {
            Some(short) => Ok(one(ns, short)),
            None => whole(alloc, ns, binding),
        }
    }

    /// Whether the name is bound in a namespace.
    #[inline(always)]
    pub fn is_bound_in(&self, ns: Namespace) -> bool
        ensures { (map : MapId) → result ≡ is_some (stands_for K.meaning map self.now ns) }
    {
        match self {
            BoundName::One { ns: own, .. } => own.is_same(ns),
            BoundName::Each(each) => !each.parts.get(ns).is_vacant(),
        }
    }

    /// The binding in a namespace.
    #[inline(always)]
    pub fn get(&self, map: MapId, ns: Namespace) -> Option<Binding<V>>
        ensures { result ≡ stands_for K.meaning map self.now ns }
    {
        match self {
            BoundName::One {
                ns: own,
                kind,
                source,
                idx,
                def,
                vis,
                import,
            } => {
                if !own.is_same(ns) {
                    return None;
                }
                let short = Short {
                    kind: *kind,
                    source: *source,
                    idx: *idx,
                    def: *def,
                    vis: *vis,
                    import: *import,
                };
                Some(in_full(map, short))
            }
            BoundName::Each(each) => {
                let whole = each.parts.get(ns).long(map);
                whole
            }
        }
    }

    /// The visibility of the binding in a namespace.
    #[inline(always)]
    pub fn visibility(&self, map: MapId, ns: Namespace) -> Option<V>
        ensures { result ≡ option_map (λ b. b.vis) (stands_for K.meaning map self.now ns) }
    {
        match self {
            BoundName::One { ns: own, vis, .. } => {
                if own.is_same(ns) {
                    Some((*vis).vis(map))
                } else {
                    None
                }
            }
            BoundName::Each(each) => each.parts.get(ns).visibility(map),
        }
    }

    /// The bindings in all namespaces.
    pub fn all(&self, map: MapId) -> NameBindings<V>
        ensures { bound_in result ≡ stands_for K.meaning map self.now }
    {
        match self {
            BoundName::One {
                ns,
                kind,
                source,
                idx,
                def,
                vis,
                import,
            } => {
                let short = Short {
                    kind: *kind,
                    source: *source,
                    idx: *idx,
                    def: *def,
                    vis: *vis,
                    import: *import,
                };
                NameBindings::of(*ns, in_full(map, short))
            }
            BoundName::Each(each) => each.parts.all(map),
        }
    }

    /// The module that it is bound to in types, if it is bound to one.
    pub fn module(&self, map: MapId) -> Option<ModuleId>
        ensures { result ≡ module_bound (stands_for K.meaning map self.now Types) }
    {
        match self {
            BoundName::One {
                ns: Namespace::Types,
                kind: Kind::Module,
                def,
                ..
            } => Some(ModuleId {
                map,
                index: *def as usize,
            }),
            BoundName::One { .. } => None,
            BoundName::Each(each) => each.parts.types.module(map),
        }
    }

    /// Binds the name in a namespace.
    pub fn set(
        &mut self,
        alloc: Global,
        map: MapId,
        ns: Namespace,
        binding: &Binding<V>,
    ) -> Result<(), AllocError>
        ensures done { OnOk result (stands_for K.meaning map self.new
            ≡ with_namespace (stands_for K.meaning map self.old) ns (Some binding.now)) }
        ensures refused { OnErr result (self.new ≡ self.old) }
    {
        match self {
            BoundName::One {
                ns: own,
                kind,
                source,
                idx,
                def,
                vis,
                import,
            } => {
                let own = *own;
                if own.is_same(ns) {
                    *self = BoundName::of(alloc, map, ns, binding)?;
                    return Ok(());
                }
                let first = Short {
                    kind: *kind,
                    source: *source,
                    idx: *idx,
                    def: *def,
                    vis: *vis,
                    import: *import,
                };
                *self = both(alloc, map, own, first, ns, binding)?;
                Ok(())
            }
            BoundName::Each(each) => {
                let part = Part::of(alloc, map, binding)?;
                each.parts.put(ns, part);
                Ok(())
            }
        }
    }

    /// Takes a binding out, and answers whether another is left. A name that has none keeps what it
    /// had.
    pub fn take(&mut self, map: MapId, ns: Namespace) -> bool
        ensures left { IsTrue result → stands_for K.meaning map self.new
            ≡ with_namespace (stands_for K.meaning map self.old) ns None }
        ensures none { IsFalse result → with_namespace (stands_for K.meaning map self.old) ns None ≡ (λ n. None) }
    {
        match self {
            BoundName::One { ns: own, .. } => !own.is_same(ns),
            BoundName::Each(each) => {
                if each.parts.is_alone(ns) {
                    return false;
                }
                each.parts.put(ns, Part::Vacant);
                true
            }
        }
    }
}
