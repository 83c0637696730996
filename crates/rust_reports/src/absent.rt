//! Crates that are not given.

use def_ids::Edition;
use indexmap::{IndexMap, IndexSet};
use item_tree::{Crate, Name};
use rust_codebase::Codebase;
use std::alloc::{AllocError, Global};

/// What is known of a crate beside its map: its edition, and the crates by name that it may use and
/// that are not given.
#[derive(Drop)]
pub struct CrateNotes {
    pub krate: Crate,
    pub edition: Edition,
    pub absent: Vec<String>,
}

/// Names of the standard library's prelude, which are in scope everywhere.
const PRELUDE: [&str; 64] = [
    "Option",
    "Some",
    "None",
    "Result",
    "Ok",
    "Err",
    "Box",
    "String",
    "Vec",
    "ToOwned",
    "ToString",
    "Clone",
    "Copy",
    "Debug",
    "Default",
    "Eq",
    "Hash",
    "Ord",
    "PartialEq",
    "PartialOrd",
    "Send",
    "Sync",
    "Sized",
    "Unpin",
    "Drop",
    "Fn",
    "FnMut",
    "FnOnce",
    "AsRef",
    "AsMut",
    "Into",
    "From",
    "TryFrom",
    "TryInto",
    "Iterator",
    "IntoIterator",
    "Extend",
    "DoubleEndedIterator",
    "ExactSizeIterator",
    "FromIterator",
    "Future",
    "IntoFuture",
    "drop",
    "thread_local",
    "vec",
    "println",
    "print",
    "eprintln",
    "eprint",
    "format",
    "panic",
    "assert_eq",
    "assert_ne",
    "debug_assert",
    "debug_assert_eq",
    "debug_assert_ne",
    "write",
    "writeln",
    "matches",
    "todo",
    "unimplemented",
    "unreachable",
    "try",
    "dbg",
];

/// The names of the standard library's crates that may be missing.
const STANDARD: [&str; 3] = ["std", "core", "alloc"];

/// The crates that are not given, by the crates that may use them.
#[derive(Drop)]
pub(crate) struct Absent {
    crates: IndexSet<(Crate, Name)>,
    editions: IndexMap<Crate, Edition>,
    /// The names of the prelude, and the crates of which it is not given.
    prelude: IndexSet<Name>,
    without_standard: IndexSet<Crate>,
}

impl Absent {
    /// Whether a crate by this name is not given to another one.
    pub(crate) fn has_crate(&self, krate: Crate, name: Name) -> bool {
        self.crates.contains(&(krate, name))
    }

    /// Whether a name is of the standard library's prelude, and that is not given to a crate.
    pub(crate) fn is_prelude(&self, krate: Crate, name: Name) -> bool {
        self.without_standard.contains(&krate) && self.prelude.contains(&name)
    }

    /// The edition of a crate.
    pub(crate) fn edition(&self, krate: Crate) -> Edition {
        let edition = self.editions.get(&krate).copied();
        edition.unwrap_or(Edition::Edition2021)
    }

    /// Nothing is known of any crate yet.
    pub(crate) fn new(alloc: Global) -> Absent {
        Absent {
            crates: IndexSet::new(alloc),
            editions: IndexMap::new(alloc),
            prelude: IndexSet::new(alloc),
            without_standard: IndexSet::new(alloc),
        }
    }

    /// Takes in that a crate by this name is not given to another one.
    fn add_crate<C: Codebase>(
        &mut self,
        codebase: &C,
        krate: Crate,
        text: &str,
    ) -> Result<(), AllocError> {
        if STANDARD.contains(&text) {
            self.without_standard.insert(krate)?;
        }
        if let Some(name) = codebase.find_name(text) {
            self.crates.insert((krate, name))?;
        }
        Ok(())
    }

    /// Takes in the names of the prelude, as far as any text has them.
    fn add_prelude<C: Codebase>(&mut self, codebase: &C) -> Result<(), AllocError> {
        for text in PRELUDE.iter() {
            if let Some(name) = codebase.find_name(text) {
                self.prelude.insert(name)?;
            }
        }
        Ok(())
    }

    /// Takes in what is known of the crates.
    pub(crate) fn add<C: Codebase>(
        &mut self,
        codebase: &C,
        notes: &[CrateNotes],
    ) -> Result<(), AllocError> {
        self.add_prelude(codebase)?;
        for note in notes {
            self.editions.insert(note.krate, note.edition)?;
            for text in note.absent.iter() {
                self.add_crate(codebase, note.krate, text.as_str())?;
            }
        }
        Ok(())
    }
}
