//! What a walk does with an item, each step over the parts of the state that it changes: the lists
//! that it goes over, where their items stand, and what an item declares, records and reports.
#![tactic(auto)]

mod declarations;
mod extern_crates;
mod impls;
mod item_order;
mod lists;
mod modules;
mod numbered;
mod reports;
mod visibility;

pub use declarations::{Definition, define, define_struct, expect_names, put, take_out};
pub use extern_crates::name_crate;
pub use impls::define_impl;
pub use item_order::is_crate_root;
pub use lists::{Frame, ItemList, disabled_by, push_list, push_opened, top_items};
pub use modules::{ChildModule, bring_macros, hands_on, into_if, is_macro_use, push_child_module};
pub use numbered::{Declaration, Declared, number_adt, number_function, number_item};
pub use reports::{report, report_disabled, report_disabled_item};
pub use visibility::meant_or_public;
