//! Attributes of items: which one an item waits for, what its macro does with the item, the derives
//! that it lists, those that are deferred, and their impls, each step over the parts of the state that
//! it reads or changes.
#![tactic(auto)]

mod attrs;
mod deferred;
mod derives;
mod given;
mod impls;
mod item_attrs;

pub use attrs::{AttrUse, attr_call, attr_use, awaited_attr, is_helper};
pub use deferred::{DeferredDerives, expand_deferred};
pub use derives::{DeriveList, derive_paths, hand_on};
pub use given::{
    FoundAttr, FoundDerive, call_list, call_tried, call_waiting, give_up, queue_derive,
    refuse_list, report_no_expander,
};
pub use impls::{DerivedItem, give_impls};
pub use item_attrs::ItemAttrs;
