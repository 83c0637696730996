//! What brings names into a module.

use def_bindings::Namespace;
use def_map::Item;
use item_tree::Name;

/// What brings a name into a module. Sources are asked in this order, and the first one that has a name
/// in a namespace counts. Builtin types are asked between the scope and what is outside it.
#[derive(Clone, Copy, PartialEq, Eq, Debug)]
pub enum BroughtBy {
    /// The last textual macro of the name.
    TextualMacro,
    /// What the module declares and imports.
    Scope,
    /// The crates that paths may begin with.
    ExternPrelude,
    /// The macros that extern crates brought.
    MacroUsePrelude,
    /// The module whose names are seen everywhere in the crate.
    Prelude,
}

/// A name that a module sees, what it means there in one namespace, and what brings it.
#[derive(Clone, Copy, PartialEq, Eq, Debug)]
pub struct VisibleName {
    pub name: Name,
    pub ns: Namespace,
    pub item: Item,
    pub by: BroughtBy,
}
