//! What is set for a crate: flags, and values of keys.

ghost use Rattle.std.specs.Prelude.{◌≡◌};
ghost use Rattle.cfg_logic.specs.Options.{has_flag, has_value};

use indexmap::{IndexMap, IndexSet};
use std::alloc::{AllocError, Global};

/// What is set for a crate: flags, such as `unix`, and values, such as `"alloc"` of `feature`.
#[derive(Drop)]
pub struct CfgOptions {
    flags: IndexSet<String>,
    /// For each key its values.
    values: IndexMap<String, IndexSet<String>>,
}

impl CfgOptions {
    /// Nothing is set.
    pub fn new(alloc: Global) -> CfgOptions {
        CfgOptions {
            flags: IndexSet::new(alloc),
            values: IndexMap::new(alloc),
        }
    }

    /// Sets a flag.
    pub fn add_flag(&mut self, name: &str) -> Result<(), AllocError> {
        let alloc = *self.flags.allocator();
        if !self.flags.contains(name) {
            let name = String::from_str(alloc, name)?;
            self.flags.insert(name)?;
        }
        Ok(())
    }

    /// Adds a value to those of a key.
    pub fn add_value(&mut self, key: &str, value: &str) -> Result<(), AllocError> {
        let alloc = *self.values.allocator();
        let value = String::from_str(alloc, value)?;
        if let Some(values) = self.values.get_mut(key) {
            values.insert(value)?;
            return Ok(());
        }
        let mut values = IndexSet::new(alloc);
        values.insert(value)?;
        let key = String::from_str(alloc, key)?;
        self.values.insert(key, values)?;
        Ok(())
    }

    /// Takes a flag away.
    pub fn remove_flag(&mut self, name: &str) {
        self.flags.shift_remove(name);
    }

    /// Takes a value of a key away.
    pub fn remove_value(&mut self, key: &str, value: &str) {
        if let Some(values) = self.values.get_mut(key) {
            values.shift_remove(value);
        }
    }

    /// Whether a flag is set.
    pub fn has_flag(&self, name: &str) -> bool
        ensures { result ≡ has_flag self.now name.now }
    {
        self.flags.contains(name)
    }

    /// Whether a key has a value.
    pub fn has_value(&self, key: &str, value: &str) -> bool
        ensures { result ≡ has_value self.now key.now value.now }
    {
        match self.values.get(key) {
            Some(values) => values.contains(value),
            None => false,
        }
    }
}
