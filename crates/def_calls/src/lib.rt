//! What waits for a macro, calls, items and derives: how it waits and leaves, where its expansion stands,
//! and what is recorded and reported of it, each step over the parts of the state that it reads or
//! changes.
#![tactic(auto)]

mod deferral;
mod directives;
mod fallback;
mod queries;

pub use directives::{
    Expansion, MacroDirective, MacroDirectiveKind, WrittenAttr, WrittenDerive, give_call, leave,
    left_macros, put_asked_first, queue_macro, record_calls, record_inner, report_left_call,
    report_left_derive, settle_call, stay,
};
pub use fallback::{WaitingItem, fill_gap, first_item, report_attr, take_out};
pub use queries::{expansion_dir, stored_dir, waiting_answer};
