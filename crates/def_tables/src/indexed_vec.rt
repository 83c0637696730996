//! Values in a list of their own, found by keys.
ghost use Rattle.std.specs.List.{zip};
ghost use Rattle.std.specs.Prelude.{◌≡◌, ◌↔◌, [], length, Some, IfSome, IsTrue, option_copied};
ghost use Rattle.def_tables.specs.IndexedVec.{get};

use indexmap::IndexSet;
use std::alloc::{AllocError, Global};
use std::hash::Hash;

/// Values by key, each at the place of its key among all. A map of the kit keeps room for as many values as
/// its index may find, up to twice as many as there are; here their list grows by itself.
#[derive(Drop)]
pub struct IndexedVec<P: Eq + Hash, W> {
    pub keys: IndexSet<P>,
    pub values: Vec<W>,
    ghost paired: { length values.items ≡ length keys.keys },
}

impl<P: Copy + Eq + Hash, W: Drop> IndexedVec<P, W> {
    /// No values.
    pub fn new(alloc: Global) -> Self
        ensures { zip result.keys.keys result.values.items ≡ [] }
    {
        IndexedVec {
            keys: IndexSet::new(alloc),
            values: Vec::new(alloc),
        }
    }

    /// Makes room for more values. The set of keys makes its list as long as its index may be filled. Where
    /// most of the list is still to come it gives back what is more than was asked for; else that would copy
    /// what is there each time.
    pub fn reserve(&mut self, values: usize) -> Result<(), AllocError>
        ensures { zip self.new.keys.keys self.new.values.items ≡ zip self.old.keys.keys self.old.values.items }
    {
        self.keys.reserve(values)?;
        let len = self.keys.len();
        if len <= values {
            self.keys.shrink_to(len.saturating_add(values));
        }
        self.values.reserve(values)
    }

    /// Whether there are no values.
    pub fn is_empty(&self) -> bool
        ensures { IsTrue result ↔ (zip self.now.keys.keys self.now.values.items ≡ []) }
    {
        self.values.is_empty()
    }

    /// The value of a key.
    #[inline(always)]
    pub fn get(&self, key: P) -> Option<&W>
        ensures { option_copied result ≡ get P.eq (zip self.now.keys.keys self.now.values.items) key }
    {
        match self.keys.get_index_of(&key) {
            Some(number) => Some(&self.values[number]),
            None => None,
        }
    }

    /// The value with this number among all, where it is that of this key.
    fn numbered(&self, number: usize, key: P) -> Option<&W>
        ensures { IfSome result (λ there. get P.eq (zip self.now.keys.keys self.now.values.items) key ≡ Some there.now) }
    {
        let _ = self.keys.len();
        match self.keys.get_index(number) {
            Some(found) if key == *found => Some(&self.values[number]),
            _ => None,
        }
    }

    /// The value of a key. It is looked for at the number `near` first, which is then the one after it.
    #[inline(always)]
    pub fn get_near(&self, key: P, near: &mut usize) -> Option<&W>
        ensures { option_copied result ≡ get P.eq (zip self.now.keys.keys self.now.values.items) key }
    {
        if let Some(there) = self.numbered(*near, key) {
            *near = near.saturating_add(1);
            return Some(there);
        }
        match self.keys.get_index_of(&key) {
            Some(number) => {
                *near = number.saturating_add(1);
                Some(&self.values[number])
            }
            None => None,
        }
    }
}
