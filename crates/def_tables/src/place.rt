//! Where a numbered table keeps its values.

ghost use Rattle.std.specs.Prelude.{◌++◌};
ghost use Rattle.std.proofs.Common.{rules};
ghost use Rattle.std.specs.Cmp.Rules.{hashing};
ghost use Rattle.std.specs.Hash as fed;

use def_ids::ModuleId;
use std::hash::{Hash, Hasher};
use tree_ids::Name;

/// A name in a module of the table's own map, which the module's index says.
#[derive(Clone, Copy, PartialEq, Eq, Hash)]
pub struct OwnPlace {
    pub index: usize,
    pub name: Name,
}

/// A key in a module.
#[derive(Clone, Copy, PartialEq, Eq)]
pub struct Placed<K> {
    pub at: ModuleId,
    pub key: K,
}

/// Most keys of a table are in modules of one map, so the hash leaves the map out. Equal keys still
/// compare whole.
impl<K: Hash> Hash for Placed<K> {
    ghost hash_input = { λ p. fed.usize p.at.index ++ K.hash_input p.key };

    ghost respects_eq = { Prim.search (hashing, rules) };

    fn hash<H: Hasher>(&self, state: &mut H) {
        self.at.index.hash(state);
        self.key.hash(state);
    }
}
