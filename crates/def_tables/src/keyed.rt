//! Values by module and key.
ghost use Rattle.std.specs.Prelude.{◌≡◌, ◌↔◌, ◌<◌, ◌^◌, IsTrue, IsFalse, is_some, true, [], length, option_map, slice_get, OnOk, OnErr, Some};
ghost use Rattle.std.specs.List.{IsDistinct};
ghost use Rattle.std.specs.Map.{lookup, keys_of};
ghost use Rattle.indexmap.specs.IndexMap.{get, insert_entry, keys};
ghost use Rattle.def_bindings.specs.Content.{listed_as};
ghost use Rattle.def_tables.specs.Lists.{lists_of};
ghost use Rattle.def_tables.specs.Numbers.{AreNumbered, own_entries};

use crate::lists::Lists;
use crate::place::Placed;
use def_ids::ModuleId;
use indexmap::IndexMap;
use std::alloc::{AllocError, Global};
use std::hash::Hash;

/// Values in one numbered list, each under a module and a key. For each module there are the
/// numbers of its values, in order.
#[derive(Drop)]
pub struct Keyed<K: Eq + Hash, W> {
    entries: IndexMap<Placed<K>, W>,
    numbers: Lists<usize>,
    ghost numbered: { AreNumbered (keys entries) (lists_of numbers) },
}

/// Replaces the value of a key that is there, and answers whether it is.
fn replace<K: Copy + Eq + Hash, W: Copy>(entries: &mut IndexMap<K, W>, key: K, value: W) -> bool
    ensures found { result ≡ is_some (get K.eq entries.old key) }
    ensures entries { IsTrue result → entries.new.entries
        ≡ insert_entry K.eq entries.old.entries key value }
    ensures same { IsFalse result → entries.new.entries ≡ entries.old.entries }
{
    match entries.get_mut(&key) {
        Some(there) => {
            *there = value;
            true
        }
        None => false,
    }
}

impl<K: Copy + Eq + Hash, W: Copy> Keyed<K, W> {
    /// No values.
    pub fn new(alloc: Global) -> Self
        ensures { own_entries result.entries.entries ≡ (λ m. []) }
    {
        Keyed {
            entries: IndexMap::new(alloc),
            numbers: Lists::new(alloc),
        }
    }

    /// Makes room for more values.
    pub fn reserve(&mut self, values: usize) -> Result<(), AllocError>
        ensures { own_entries self.new.entries.entries ≡ own_entries self.old.entries.entries }
    {
        self.entries.reserve(values)
    }

    /// The key and the value at this place of a module, in order.
    pub fn at(&self, module: ModuleId, index: usize) -> Option<(K, W)>
        ensures entry { result ≡ slice_get (own_entries self.now.entries.entries «module») index }
        ensures few { length (own_entries self.now.entries.entries «module») < 2 ^ 64 }
    {
        // Most tables have no edges and no unnamed traits, and then nothing is looked up.
        if self.entries.is_empty() {
            return None;
        }
        let _ = self.entries.len();
        match self.numbers.at(module, index) {
            Some(number) => match self.entries.get_index(number) {
                Some((placed, value)) => Some((placed.key, *value)),
                None => None,
            },
            None => None,
        }
    }

    /// Whether a module has a value.
    #[inline(always)]
    pub fn has(&self, module: ModuleId) -> bool
        ensures { result ≡ is_some (slice_get (own_entries self.now.entries.entries «module») 0) }
    {
        // Most tables have no edges and no unnamed traits, and then nothing is looked up.
        if self.entries.is_empty() {
            return false;
        }
        self.numbers.at(module, 0).is_some()
    }

    /// The module, the key and the value with this number among all.
    pub fn numbered(&self, number: usize) -> Option<(ModuleId, K, W)>
        ensures entry { result ≡ option_map (λ e. (e.0.at, e.0.key, e.1)) (slice_get self.now.entries.entries number) }
        ensures few { length self.now.entries.entries < 2 ^ 64 }
    {
        let _ = self.entries.len();
        match self.entries.get_index(number) {
            Some((placed, value)) => Some((placed.at, placed.key, *value)),
            None => None,
        }
    }

    /// The value of a key in a module.
    pub fn get(&self, module: ModuleId, key: K) -> Option<W>
        ensures { result ≡ lookup (K.eq key) (own_entries self.now.entries.entries «module») }
    {
        self.entries.get(&Placed { at: module, key }).copied()
    }

    /// How many values there are.
    pub fn len(&self) -> usize
        ensures { result ≡ length self.now.entries.entries }
    {
        self.entries.len()
    }

    /// Whether there are no values.
    pub fn is_empty(&self) -> bool
        ensures { IsTrue result ↔ (own_entries self.now.entries.entries ≡ (λ m. [])) }
    {
        self.entries.is_empty()
    }

    /// Sets a value, in the place of the one with its key or last.
    pub fn set(&mut self, module: ModuleId, key: K, value: W) -> Result<(), AllocError>
        ensures done { OnOk result (own_entries self.new.entries.entries
            ≡ listed_as (own_entries self.old.entries.entries) «module»
            (insert_entry K.eq (own_entries self.old.entries.entries «module») key value)) }
        ensures refused { OnErr result (own_entries self.new.entries.entries
            ≡ own_entries self.old.entries.entries) }
        ensures distinct { IsDistinct K.eq (keys_of (own_entries self.old.entries.entries «module»)) }
    {
        let number = self.entries.len();
        let placed = Placed { at: module, key };
        if replace(&mut self.entries, placed, value) {
            return Ok(());
        }
        self.entries.reserve(1)?;
        self.numbers.push(module, number)?;
        self.entries.insert(placed, value)?;
        Ok(())
    }
}
