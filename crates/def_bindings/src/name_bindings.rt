//! The bindings of one name.
ghost use Rattle.std.specs.Prelude.{◌≡◌, Some, None, IfSome, IfNone, option_copied};
ghost use Rattle.def_bindings.specs.NameBindings.{bound_in, with_bound, unbound, is_unbound};

use crate::bindings::{Binding, Namespace};

/// What one name stands for in each namespace.
#[derive(Clone, Copy)]
pub struct NameBindings<V> {
    pub types: Option<Binding<V>>,
    pub values: Option<Binding<V>>,
    pub macros: Option<Binding<V>>,
}

impl<V: Copy> NameBindings<V> {
    /// No bindings.
    pub fn unbound() -> Self
        ensures { result ≡ unbound }
    {
        NameBindings {
            types: None,
            values: None,
            macros: None,
        }
    }

    /// One binding.
    pub fn of(ns: Namespace, binding: Binding<V>) -> Self
        ensures { result ≡ with_bound unbound ns (Some binding) }
    {
        let binding = Some(binding);
        match ns {
            Namespace::Types => NameBindings {
                types: binding,
                values: None,
                macros: None,
            },
            Namespace::Values => NameBindings {
                types: None,
                values: binding,
                macros: None,
            },
            Namespace::Macros => NameBindings {
                types: None,
                values: None,
                macros: binding,
            },
        }
    }

    /// The binding in a namespace.
    pub fn get(&self, ns: Namespace) -> Option<&Binding<V>>
        ensures { option_copied result ≡ bound_in self.now ns }
    {
        match ns {
            Namespace::Types => self.types.as_ref(),
            Namespace::Values => self.values.as_ref(),
            Namespace::Macros => self.macros.as_ref(),
        }
    }

    /// The first binding, in types, values or macros, and its namespace.
    pub fn first(&self) -> Option<(Namespace, Binding<V>)>
        ensures some { IfSome result (λ first. bound_in self.now first.0 ≡ Some first.1) }
        ensures none { IfNone result (bound_in self.now ≡ (λ n. None)) }
    {
        match (self.types, self.values, self.macros) {
            (Some(types), _, _) => Some((Namespace::Types, types)),
            (None, Some(values), _) => Some((Namespace::Values, values)),
            (None, None, Some(macros)) => Some((Namespace::Macros, macros)),
            (None, None, None) => None,
        }
    }

    /// These, with another binding or none in one namespace.
    pub fn with(self, ns: Namespace, binding: Option<Binding<V>>) -> Self
        ensures { result ≡ with_bound self ns binding }
    {
        match ns {
            Namespace::Types => NameBindings {
                types: binding,
                values: self.values,
                macros: self.macros,
            },
            Namespace::Values => NameBindings {
                types: self.types,
                values: binding,
                macros: self.macros,
            },
            Namespace::Macros => NameBindings {
                types: self.types,
                values: self.values,
                macros: binding,
            },
        }
    }

    /// Whether there is no binding in any namespace.
    pub fn is_unbound(&self) -> bool
        ensures { result ≡ is_unbound self.now }
    {
        self.types.is_none() && self.values.is_none() && self.macros.is_none()
    }
}
