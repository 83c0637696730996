//! `Numbering`: values that are numbered as they are first met.
ghost use Rattle.std.specs.Prelude.{◌≡◌, [], length, Contains, Some, slice_get, IfOk, OnOk, OnErr};
ghost use Rattle.std.specs.Option.{option_copied};
ghost use Rattle.item_tree.specs.Numbering.{IsInjective, IsGrownBy};

use crate::exact::Exact;
use indexmap::IndexSet;
use std::alloc::{AllocError, Global};
use std::hash::Hash;
use std::marker::Model;

/// Values in the order in which they were first met. A contract sees their list.
pub struct Numbering<T: Eq + Hash> {
    values: IndexSet<T>,
}

impl<T: Eq + Hash + Drop> Drop for Numbering<T> {
    fn drop(self) {
        let Numbering { values: _ } = self;
    }
}

impl<T: Eq + Hash> Model for Numbering<T> {
    ghost use Rattle.std.specs.Prelude.{List};
    ghost use Rattle.std.specs.Coded.{coded_list};

    ghost Value = { List T };

    ghost coded = { coded_list T.code };

    ghost view = { λ n. n.values.keys };
}

impl<T: Exact + Hash + Drop> Numbering<T> {
    /// An empty numbering.
    pub fn new(alloc: Global) -> Self
        ensures { result ≡ [] }
    {
        Numbering {
            values: IndexSet::new(alloc),
        }
    }

    /// How many values there are. No two of them are equal.
    pub fn len(&self) -> usize
        ensures len { result ≡ length self.now }
        ensures injective { IsInjective self.now }
    {
        self.values.len()
    }

    /// Makes room for more values, so that as many are added with no copy of what is there. The set makes
    /// its list as long as its index may be filled, up to twice as long. Where most of the list is still to
    /// come it gives back what is more than was asked for; else that would copy what is there each time.
    pub fn reserve(&mut self, additional: usize) -> Result<(), AllocError>
        ensures { self.new ≡ self.old }
    {
        self.values.reserve(additional)?;
        let len = self.values.len();
        if len <= additional {
            self.values.shrink_to(len.saturating_add(additional));
        }
        Ok(())
    }

    /// The number of this value: its own if it has one, else the next.
    #[inline(never)]
    pub fn number(&mut self, value: T) -> Result<usize, AllocError>
        // On success the number stands for the value, and no other number does.
        ensures stored { IfOk result (λ i. slice_get self.new i ≡ Some value) }
        ensures grown { OnOk result (IsGrownBy value self.old self.new) }
        ensures injective { IsInjective self.new }

        // On failure nothing changes. Only a new value can fail.
        ensures unchanged { OnErr result (self.new ≡ self.old) }
        ensures fresh { OnErr result (¬ Contains self.old value) }
    {
        let (i, _) = self.values.insert_full(value)?;
        Ok(i)
    }

    /// The value of this number.
    pub fn value(&self, i: usize) -> Option<&T>
        ensures value { option_copied result ≡ slice_get self.now i }
    {
        self.values.get_index(i)
    }
}
