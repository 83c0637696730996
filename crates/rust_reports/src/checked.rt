//! What does not resolve in a crate, in the order of files and lines.

use crate::absent::CrateNotes;
use crate::opaque::Opaque;
use crate::parts::{crates_of, number_of};
use crate::reports::Reports;
use indexmap::IndexMap;
use item_tree::{Crate, Name};
use rust_codebase::{Codebase, CollectedCrate};
use rust_names::Names;
use std::alloc::AllocError;

/// What was found of a crate.
#[derive(Drop)]
pub struct Checked {
    pub reports: Reports,
    /// The crates that are not given, and how many imports name each.
    pub absent: IndexMap<String, usize>,
    pub limit_met: bool,
    /// What a summary counts.
    pub imports: usize,
    pub macros: usize,
    pub modules: usize,
    pub expanded: usize,
}

/// The crate of the workspace that has a number.
fn collected_of<'a, C: Codebase>(names: &Names<'a, C>, krate: Crate) -> Option<&'a CollectedCrate> {
    for collected in crates_of(names) {
        if number_of(collected) == krate {
            return Some(collected);
        }
    }
    None
}

/// How many modules a crate has.
fn module_count<C: Codebase>(names: &Names<'_, C>, krate: Crate) -> usize {
    match names.map(krate) {
        Some(map) => map.modules().len(),
        None => 0,
    }
}

impl Checked {
    /// What a summary counts of a crate, of which nothing was found yet.
    fn of<C: Codebase>(names: &Names<'_, C>, collected: &CollectedCrate) -> Checked {
        Checked {
            reports: Reports::new(names.alloc),
            absent: IndexMap::new(names.alloc),
            limit_met: collected.outcome.limit_met,
            imports: collected.outcome.imports.len(),
            macros: collected.outcome.macros.len(),
            modules: module_count(names, collected.krate),
            expanded: collected.expanded,
        }
    }

    /// Adds a crate that is not given, and how often it is used.
    fn add_absent(&mut self, text: String, count: usize) -> Result<(), AllocError> {
        self.absent.insert(text, count)?;
        Ok(())
    }

    /// Adds a crate that is not given, by its name, and how often it is used.
    fn add_used<C: Codebase>(
        &mut self,
        names: &Names<'_, C>,
        name: Name,
        count: usize,
    ) -> Result<(), AllocError> {
        let text = String::from_str(names.alloc, names.text(name))?;
        self.add_absent(text, count)
    }

    /// Adds the crates that are not given and are used.
    fn add_each_absent<C: Codebase>(
        &mut self,
        names: &Names<'_, C>,
        uses: &IndexMap<Name, usize>,
    ) -> Result<(), AllocError> {
        for (name, count) in uses.iter() {
            self.add_used(names, *name, *count)?;
        }
        Ok(())
    }

    /// Puts the crates that are not given in the order of their names.
    fn sort_absent(&mut self) -> Result<(), AllocError> {
        self.absent.sort_keys()?;
        Ok(())
    }

    /// Adds the crates that are not given and are used, in the order of their names.
    fn add_all_absent<C: Codebase>(
        &mut self,
        names: &Names<'_, C>,
        opaque: &Opaque,
    ) -> Result<(), AllocError> {
        self.add_each_absent(names, opaque.uses())?;
        self.sort_absent()
    }

    /// Finds what is reported.
    fn find_reports<C: Codebase>(
        &mut self,
        names: &Names<'_, C>,
        opaque: &Opaque,
        collected: &CollectedCrate,
    ) -> Result<(), AllocError> {
        self.reports.find(names, opaque, collected)
    }

    /// Finds what comes from crates that are not given, and then what does not resolve beside that.
    fn fill<C: Codebase>(
        &mut self,
        names: &Names<'_, C>,
        opaque: &mut Opaque,
        collected: &CollectedCrate,
        notes: &[CrateNotes],
    ) -> Result<(), AllocError> {
        opaque.look_through_all(names, collected, notes)?;
        self.find_reports(names, opaque, collected)?;
        self.add_all_absent(names, opaque)
    }

    /// Finds what does not resolve in a crate, in the order of files and lines. What the crates that it
    /// depends on leave over counts only as far as it makes something unknown. None where the
    /// workspace has no such crate.
    pub fn new<C: Codebase>(
        names: &Names<'_, C>,
        krate: Crate,
        notes: &[CrateNotes],
    ) -> Result<Option<Checked>, AllocError> {
        let Some(collected) = collected_of(names, krate) else {
            return Ok(None);
        };
        let mut checked = Checked::of(names, collected);
        let mut opaque = Opaque::new(names.alloc);
        checked.fill(names, &mut opaque, collected, notes)?;
        Ok(Some(checked))
    }
}
