//! Macros that calls, attributes and derives name: which one a path finds where it stands and once imports
//! are resolved, how it is asked, and what the answer is. All of it only reads.
#![tactic(auto)]

mod attr_macros;
mod attr_resolution;
mod call_queries;
mod derive_macros;
mod early_resolver;
mod path_resolver;

pub use attr_macros::{attr_macro, expand_error, is_builtin_or_registered_attr};
pub use attr_resolution::{AttrMeaning, AttrResolution, ResolvedAttr, attr_meaning};
pub use call_queries::{WrittenCall, call_answer, call_query, deeper, early_answer, is_too_deep};
pub use derive_macros::derive_macro;
pub use early_resolver::EarlyResolver;
pub use path_resolver::PathResolver;
