//! What is known of calls of macros and of macros' definitions, over all crates.
ghost use Rattle.std.specs.Prelude.{◌≡◌, ◌-◌, ◌^◌, min};

use def_parts::ModDir;
use indexmap::{IndexMap, IndexSet};
use item_tree::{FileAstId, InFile, Name};
use macro_by_example::Rules;
use std::alloc::{AllocError, Global};

/// Where a call stands, and the number of its module's directory.
#[derive(Clone, Copy)]
pub(crate) struct CallSite {
    pub(crate) position: InFile<FileAstId>,
    pub(crate) directory: u32,
}

/// Calls, definitions, and directories of modules, by their numbers.
pub(crate) struct CallTable {
    pub(crate) directories: Vec<ModDir>,
    pub(crate) sites: Vec<CallSite>,
    /// The definitions of macros.
    pub(crate) definitions: IndexSet<InFile<FileAstId>>,
    /// Those of the builtin `include`.
    pub(crate) includes: IndexSet<u32>,
    /// Those of macros of the standard library that are known where it is not given.
    pub(crate) implied: Vec<(Name, u32)>,
    /// The rules of each definition, as far as they were read. None where they are faulty.
    pub(crate) rules: IndexMap<u32, Option<Rules>>,
    /// The definition of each name in the crates that were collected. None where there are several.
    pub(crate) named: IndexMap<Name, Option<u32>>,
    /// How many macros by rules and `macro` items of the session were learned.
    pub(crate) learned: (usize, usize),
}

/// A call that may be expanded before its macro is known.
#[derive(Clone, Copy)]
pub(crate) struct CallAhead {
    pub(crate) place: u32,
    pub(crate) name: Name,
    /// The last definition of that name above the call in its file.
    pub(crate) above: Option<u32>,
}

impl Drop for CallTable {
    fn drop(self) {
        let CallTable {
            directories: _,
            sites: _,
            definitions: _,
            includes: _,
            implied: _,
            rules: _,
            named: _,
            learned: _,
        } = self;
    }
}

impl CallTable {
    /// A table of nothing.
    pub(crate) fn new(alloc: Global) -> CallTable {
        CallTable {
            directories: Vec::new(alloc),
            sites: Vec::new(alloc),
            definitions: IndexSet::new(alloc),
            includes: IndexSet::new(alloc),
            implied: Vec::new(alloc),
            rules: IndexMap::new(alloc),
            named: IndexMap::new(alloc),
            learned: (0, 0),
        }
    }
}

/// Writes a definition down by its name.
pub(crate) fn name_definition(
    named: &mut IndexMap<Name, Option<u32>>,
    name: Name,
    definition: Option<u32>,
) -> Result<(), AllocError> {
    let only = if named.contains_key(&name) {
        None
    } else {
        definition
    };
    named.insert(name, only)?;
    Ok(())
}

/// A number in 32 bits, the greatest one for all that have none there.
pub(crate) fn kept(number: usize) -> u32
    ensures { result ≡ min number (2 ^ 32 - 1) }
{
    if number > 0xffff_ffff {
        return u32::MAX;
    }
    number as u32
}
