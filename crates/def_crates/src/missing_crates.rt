//! Extern crates that were not found.
ghost use Rattle.std.specs.Prelude.{◌≡◌, false, true, OnOk};
ghost use Rattle.def_bindings.specs.Content.{is_name};
ghost use Rattle.def_modules.specs.Updates.{set_where};
ghost use Rattle.def_rules.specs.Report as report;
ghost use Rattle.def_crates.specs.Missing.{missing_in};

use indexmap::IndexSet;
use item_tree::{ModPath, Name, PathKind};
use std::alloc::{AllocError, Global};

/// The names of the extern crates that were not found.
pub struct MissingCrates {
    names: IndexSet<Name>,
}

impl Drop for MissingCrates {
    fn drop(self) {
        let MissingCrates { names: _ } = self;
    }
}

impl MissingCrates {
    /// No name.
    pub fn new(alloc: Global) -> MissingCrates
        ensures { missing_in result ≡ (λ name. false) }
    {
        MissingCrates {
            names: IndexSet::new(alloc),
        }
    }

    /// Remembers a name. On `Err` nothing but safety is promised.
    pub fn insert(&mut self, name: Name) -> Result<(), AllocError>
        ensures { OnOk result (missing_in self.new ≡ set_where (is_name name) true (missing_in self.old)) }
    {
        self.names.insert(name)?;
        Ok(())
    }

    /// Whether a path begins with one of the names, which excuses an import of it.
    pub fn excuses(&self, path: &ModPath) -> bool
        ensures { result ≡ report.is_excused (missing_in self.now) path.now }
    {
        may_name_crate(path.kind) && self.has_first(path.segments.as_slice())
    }

    /// Whether the first of these names is there.
    fn has_first(&self, names: &[Name]) -> bool
        ensures { result ≡ report.begins_with (missing_in self.now) names.now }
    {
        match names {
            [first, ..] => self.names.contains(first),
            [] => false,
        }
    }
}

/// Whether a path may begin with the name of a crate.
fn may_name_crate(kind: PathKind) -> bool
    ensures { result ≡ report.may_name_crate kind }
{
    match kind {
        PathKind::Plain | PathKind::Abs => true,
        _ => false,
    }
}
