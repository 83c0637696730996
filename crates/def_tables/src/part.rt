//! Bindings of names that stand for more than has a short form.
ghost use Rattle.std.specs.Prelude.{◌≡◌, Some, option_map, IfOk};
ghost use Rattle.def_bindings.specs.NameBindings.{module_bound};
ghost use Rattle.def_tables.specs.Parts.{is_vacant, part_in};

use crate::kept::Kept;
use crate::short::{Kind, Short, in_full, in_short};
use def_bindings::Binding;
use def_ids::{MapId, ModuleId};
use std::alloc::{AllocError, Global};

/// What a name stands for in one namespace, in a table of one map.
#[derive(Drop)]
pub enum Part<V, K> {
    Vacant,
    Numbers(Short<K>),
    Whole(Box<Binding<V>>),
}

impl<V: Copy, K: Kept<V>> Part<V, K> {
    /// A binding, in short where it has a short form.
    pub fn of(alloc: Global, map: MapId, binding: &Binding<V>) -> Result<Self, AllocError>
        ensures { IfOk result (λ part. part_in K.meaning map part ≡ Some binding.now) }
    {
        match in_short(map, binding) {
            Some(short) => Ok(Part::Numbers(short)),
            None => Ok(Part::Whole(Box::new(alloc, *binding)?)),
        }
    }

    /// The binding, if there is one.
    pub fn long(&self, map: MapId) -> Option<Binding<V>>
        ensures { result ≡ part_in K.meaning map self.now }
    {
        match self {
            Part::Vacant => None,
            Part::Numbers(short) => Some(in_full(map, *short)),
            Part::Whole(binding) => Some(**binding),
        }
    }

    /// The visibility of the binding, if there is one.
    pub fn visibility(&self, map: MapId) -> Option<V>
        ensures { result ≡ option_map (λ b. b.vis) (part_in K.meaning map self.now) }
    {
        match self {
            Part::Vacant => None,
            Part::Numbers(short) => Some(short.vis.vis(map)),
            Part::Whole(binding) => Some(binding.vis),
        }
    }

    /// The module that it is, if it is one.
    pub fn module(&self, map: MapId) -> Option<ModuleId>
        ensures { result ≡ module_bound (part_in K.meaning map self.now) }
    {
        match self {
            Part::Vacant => None,
            Part::Numbers(
                Short {
                    kind: Kind::Module,
                    def,
                    ..
                },
            ) => Some(ModuleId {
                map,
                index: *def as usize,
            }),
            Part::Numbers(_) => None,
            Part::Whole(binding) => binding.def.as_module(),
        }
    }

    /// Whether there is none.
    pub fn is_vacant(&self) -> bool
        ensures { result ≡ is_vacant self.now }
    {
        match self {
            Part::Vacant => true,
            Part::Numbers(_) | Part::Whole(_) => false,
        }
    }
}
