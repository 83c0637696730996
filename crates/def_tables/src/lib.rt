//! Two tables of bindings. The one that maps have keeps the names of all modules in one index, and so
//! the unnamed traits and the glob edges; a second one keeps an ordered map for each module.
#![tactic(auto)]

mod bound_name;
mod each;
mod found;
mod indexed_vec;
mod kept;
mod keyed;
mod link;
mod lists;
mod numbered_table;
mod part;
mod parts;
mod place;
mod puts;
mod row;
mod scope_table;
mod short;

pub use found::Found;
pub use kept::{Kept, VisNumber};
pub use link::Link;
pub use numbered_table::NumberedTable;
pub use scope_table::ScopeTable;
