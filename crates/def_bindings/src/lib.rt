//! Visibilities and their order, bindings, and what a table of them answers.
#![tactic(auto)]

mod binding_table;
mod bindings;
mod module_tree;
mod name_bindings;
mod puts;
mod visibility;

pub use binding_table::BindingTable;
pub use bindings::{Binding, EdgeTo, Entry, ImportOrExternCrate, Namespace, Slot};
pub use module_tree::ModuleTree;
pub use name_bindings::NameBindings;
pub use puts::{copy_along, fit, held_at, put_at, slot_of_entry, write};
pub use visibility::{VisOrder, Visibility, is_raised, lesser_or_import};
