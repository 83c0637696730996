//! What modules bind.
ghost use Rattle.std.specs.Prelude.{◌≡◌};

use def_ids::{Def, ExternCrateId, GlobId, ImportId, ModuleId, TraitId};
use tree_ids::Name;

/// A namespace.
#[derive(Clone, Copy, PartialEq, Eq, Hash, Debug)]
pub enum Namespace {
    Types,
    Values,
    Macros,
}

impl Namespace {
    ghost use Rattle.def_bindings.specs.Content.{is_namespace};

    /// Whether two namespaces are one.
    pub fn is_same(self, other: Namespace) -> bool
        ensures { result ≡ is_namespace self other }
    {
        match (self, other) {
            (Namespace::Types, Namespace::Types)
            | (Namespace::Values, Namespace::Values)
            | (Namespace::Macros, Namespace::Macros) => true,
            _ => false,
        }
    }
}

/// What brought a binding, where that is no declaration.
#[derive(Clone, Copy, PartialEq, Eq, Debug)]
pub enum ImportOrExternCrate {
    Import(ImportId),
    Glob(GlobId),
    ExternCrate(ExternCrateId),
}

/// What a name stands for in one namespace, from where it is visible, and what brought it: `None`
/// for a declaration. It is explicit unless a glob brought it.
#[derive(Clone, Copy, PartialEq, Eq, Debug)]
pub struct Binding<V> {
    pub def: Def,
    pub vis: V,
    pub import: Option<ImportOrExternCrate>,
}

/// What is put in a module. Without a name it is an unnamed trait in types.
#[derive(Clone, Copy, PartialEq, Eq)]
pub struct Entry<V> {
    pub name: Option<Name>,
    pub ns: Namespace,
    pub def: Def,
    pub vis: V,
    pub origin: Option<ImportOrExternCrate>,
}

/// The edge of a recorded glob, as its source keeps it: where its names go, with which visibility.
#[derive(Clone, Copy, PartialEq, Eq)]
pub struct EdgeTo<V> {
    pub importer: ModuleId,
    pub vis: V,
    pub glob: GlobId,
}

/// What a module can bind: a name in a namespace, or a trait without a name.
#[derive(Clone, Copy, PartialEq, Eq)]
pub enum Slot {
    Named(Name, Namespace),
    Unnamed(TraitId),
}
