//! Associated items: those of a trait or an impl, with the macro calls among them and what is reported
//! of both.
#![tactic(auto)]

mod assoc;
mod collector;
mod iter;
mod numbered;
mod owners;

pub use assoc::{AssocItemId, ImplItems, TraitItems};
pub use iter::{AssocTypes, MacroCalls};
