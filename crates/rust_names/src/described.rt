//! What is said of a binding.

use crate::imports::Brought;
use crate::names::{Names, kind_word};
use crate::places::Spot;
use def_map::Item;
use rust_codebase::Codebase;
use std::alloc::AllocError;

/// What is said of a binding, or of a definition.
#[derive(Drop)]
pub struct Described {
    pub kind: &'static str,
    /// The path at which it is declared.
    pub path: String,
    pub visibility: String,
    /// What brought it; none where it is declared where it is bound.
    pub brought: Option<Brought>,
    /// Where it is declared.
    pub spot: Option<Spot>,
}

impl<'a, C: Codebase> Names<'a, C> {
    /// What is said of a binding.
    pub fn describe(&self, item: Item) -> Result<Described, AllocError> {
        Ok(Described {
            kind: kind_word(item.def),
            path: self.def_path(item.def)?,
            visibility: self.visibility(item.vis)?,
            brought: self.brought(item.import)?,
            spot: self.spot_of(item.def),
        })
    }
}
