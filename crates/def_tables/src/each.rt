//! Names that stand for more than has a short form.
ghost use Rattle.std.specs.Prelude.{IsFalse};
ghost use Rattle.def_tables.specs.Parts.{all_vacant};

use crate::parts::Parts;

/// What a name stands for in each namespace, in one at least.
#[derive(Drop)]
pub struct Each<V, K> {
    pub parts: Parts<V, K>,
    ghost some: { IsFalse (all_vacant parts) },
}
