//! Bindings of one name in each namespace, in short where they have a short form.
ghost use Rattle.std.specs.Prelude.{◌≡◌, cond};
ghost use Rattle.def_bindings.specs.Content.{is_namespace};
ghost use Rattle.def_bindings.specs.NameBindings.{bound_in};
ghost use Rattle.def_bindings.specs.declared.bindings.Namespace.{Namespace};
ghost use Rattle.def_tables.specs.Parts.{is_alone, part_at, parts_in};
ghost use Rattle.def_tables.specs.declared.part.Part.TheVariants.{Vacant};

use crate::kept::Kept;
use crate::part::Part;
use def_bindings::{NameBindings, Namespace};
use def_ids::MapId;

/// What a name stands for in each namespace.
#[derive(Drop)]
pub struct Parts<V, K> {
    pub types: Part<V, K>,
    pub values: Part<V, K>,
    pub macros: Part<V, K>,
}

impl<V: Copy, K: Kept<V>> Parts<V, K> {
    /// Nothing.
    pub fn vacant() -> Self
        ensures { (n : Namespace) → part_at result n ≡ Vacant }
    {
        Parts {
            types: Part::Vacant,
            values: Part::Vacant,
            macros: Part::Vacant,
        }
    }

    /// What stands in a namespace.
    pub fn get(&self, ns: Namespace) -> &Part<V, K>
        ensures { result.now ≡ part_at self.now ns }
    {
        match ns {
            Namespace::Types => &self.types,
            Namespace::Values => &self.values,
            Namespace::Macros => &self.macros,
        }
    }

    /// Puts something in a namespace.
    pub fn put(&mut self, ns: Namespace, part: Part<V, K>)
        ensures { (n : Namespace) → part_at self.new n ≡ cond (is_namespace ns n) part (part_at self.old n) }
    {
        match ns {
            Namespace::Types => self.types = part,
            Namespace::Values => self.values = part,
            Namespace::Macros => self.macros = part,
        }
    }

    /// Whether nothing stands in the two other namespaces.
    pub fn is_alone(&self, ns: Namespace) -> bool
        ensures { result ≡ is_alone self.now ns }
    {
        match ns {
            Namespace::Types => self.values.is_vacant() && self.macros.is_vacant(),
            Namespace::Values => self.types.is_vacant() && self.macros.is_vacant(),
            Namespace::Macros => self.types.is_vacant() && self.values.is_vacant(),
        }
    }

    /// The bindings.
    pub fn all(&self, map: MapId) -> NameBindings<V>
        ensures { bound_in result ≡ parts_in K.meaning map self.now }
    {
        NameBindings {
            types: self.types.long(map),
            values: self.values.long(map),
            macros: self.macros.long(map),
        }
    }
}
