//! A name of a table that stands for something.
ghost use Rattle.std.specs.Prelude.{◌≡◌, None, false, is_some, option_map, IfSome};
ghost use Rattle.def_bindings.specs.Content.{is_namespace};
ghost use Rattle.def_bindings.specs.declared.bindings.Namespace.{Namespace};
ghost use Rattle.def_tables.specs.Found.{meant_by};

use crate::bound_name::BoundName;
use crate::kept::Kept;
use def_bindings::{Binding, Namespace};
use def_ids::MapId;

/// A name that stands for something, found once: who asks first where it stands, or how visible it is,
/// and then for the rest, has it looked up once.
#[derive(Drop)]
pub struct Found<'a, V, K> {
    pub(crate) map: MapId,
    pub(crate) bound: &'a BoundName<V, K>,
}

impl<V: Copy, K: Kept<V>> Found<'_, V, K> {
    /// The one namespace that it stands in, where that is seen at once.
    #[inline(always)]
    pub fn lone_ns(&self) -> Option<Namespace>
        ensures { IfSome result (λ ns. (n : Namespace) → is_namespace ns n ≡ false → meant_by K.meaning self.now n ≡ None) }
    {
        match self.bound {
            BoundName::One { ns, .. } => Some(*ns),
            BoundName::Each(_) => None,
        }
    }

    /// Whether it stands for something in a namespace.
    #[inline(always)]
    pub fn is_in(&self, ns: Namespace) -> bool
        ensures { result ≡ is_some (meant_by K.meaning self.now ns) }
    {
        self.bound.is_bound_in(ns)
    }

    /// The visibility of what it stands for in a namespace.
    #[inline(always)]
    pub fn visibility(&self, ns: Namespace) -> Option<V>
        ensures { result ≡ option_map (λ b. b.vis) (meant_by K.meaning self.now ns) }
    {
        self.bound.visibility(self.map, ns)
    }

    /// What it stands for in a namespace.
    #[inline(always)]
    pub fn binding(&self, ns: Namespace) -> Option<Binding<V>>
        ensures { result ≡ meant_by K.meaning self.now ns }
    {
        self.bound.get(self.map, ns)
    }
}
