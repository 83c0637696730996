//! What is done with an import, each step over the parts of the state that it changes: the lists of
//! imports that are not resolved, what globs bring and were recorded with, and what is left at the
//! end.
#![tactic(auto)]

mod answer;
mod directive;
mod glob_scope;
mod import_lists;
mod left_imports;
mod named;
mod targets;

pub use answer::{is_public, kept_in};
pub use directive::{
    Import, ImportDirective, NamespaceSet, crate_name, import_name, is_prelude_import, is_ready,
    kept_after, new_prelude,
};
pub use glob_scope::{GlobScope, variants_entries};
pub use import_lists::{ImportAt, ImportList, PendingImports, WrittenUse};
pub use left_imports::report_left_imports;
pub use named::{lone_given, named_entries};
pub use targets::{add_target, edges_of, targets_of};
