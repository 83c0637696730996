//! The items of token trees: what each is, what it is named, who sees it, and where its parts stand.
#![tactic(auto)]

mod attributes;
mod fault;
mod heads;
mod item;
mod read;
mod reader;
mod shapes;
mod types;
mod uses;
mod words;

pub use fault::{ItemError, ItemFault};
pub use item::{
    Attribute, Constructor, Import, ImportKind, Item, ItemKind, ItemList, Owner, PathSegment, Span,
    Variant, VariantShape, Visibility,
};
pub use read::{item_end, read_items};
