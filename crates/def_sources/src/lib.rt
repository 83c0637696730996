//! Where paths begin: what their first segment means, in finished maps and in the map that is being made.
#![tactic(auto)]

mod asked;
mod lone_macros;
mod path_database;
mod per_ns;
mod prefixes;
mod sources;
mod table;
mod world;

pub use asked::{Asked, BuiltinShadowMode, ResolveMode};
pub use lone_macros::{relative_macro, scope_macro};
pub use path_database::PathDatabase;
pub use per_ns::{Item, MacroSubNs, PerNs, public_item};
pub use prefixes::{absolute_type, relative_type};
pub use sources::{Segment, absolute, bound, relative, scope, scope_module, scope_type};
pub use table::{FoundName, Table};
pub use world::{Asking, World};
