//! What paths mean, in finished maps and in the map that is being made.
#![tactic(auto)]

mod answers;
mod macro_resolution;
mod path_resolution;
mod path_result;
mod short;

pub use answers::is_map_among;
pub use def_sources::{
    Asked, BuiltinShadowMode, FoundName, Item, MacroSubNs, PathDatabase, PerNs, ResolveMode, Table,
    World, bound, public_item,
};
pub use path_resolution::{
    resolve_module, resolve_path_fp_with_macro, resolve_path_macro, resolve_path_scope,
    resolve_visibility,
};
pub use path_result::{PathAnswer, PrefixInfo, ReachedFixedPoint, ResolvePathResult};
