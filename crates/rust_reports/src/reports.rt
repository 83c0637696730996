//! What is reported of a crate: each with its place and a sentence.
ghost use Rattle.std.specs.Prelude.{◌≡◌, ◌++◌, ◌∷◌, [], OnOk};

use indexmap::IndexMap;
use item_tree::{FileAstId, InFile};
use rust_codebase::Codebase;
use rust_names::{Names, Spot};
use std::alloc::{AllocError, Global};

/// Where what is reported stands.
#[derive(Drop)]
pub enum At {
    Spot(Spot),
    /// In a file that has no text.
    Path(String),
    Nowhere,
}

/// What is reported.
#[derive(Drop)]
pub struct Report {
    pub at: At,
    /// A word for its kind.
    pub kind: &'static str,
    pub what: String,
}

/// What is said of a crate: what is reported, and once of each what is left out: procedural macros
/// that are not run.
#[derive(Drop)]
pub struct Reports {
    pub list: Vec<Report>,
    /// The macros that are not run, and how often each is called.
    pub not_run: IndexMap<String, usize>,
    /// How many imports and calls are left over that come from crates that are not given.
    pub left_out: usize,
    /// How many faults the texts of other crates have.
    pub elsewhere: usize,
}

/// Where a report stands in the order of reports.
fn order_of<C: Codebase>(names: &Names<'_, C>, report: &Report) -> (usize, usize) {
    match &report.at {
        At::Spot(spot) => {
            let number = names.places.file_number(spot.source);
            (number, spot.start)
        }
        At::Path(_) => (0, 0),
        At::Nowhere => (usize::MAX, 0),
    }
}

/// The place of a part of a text, if it is known.
pub(crate) fn at_spot(spot: Option<Spot>) -> At {
    match spot {
        Some(spot) => At::Spot(spot),
        None => At::Nowhere,
    }
}

impl Reports {
    ghost use Rattle.rust_reports.specs.declared.reports.Report.{Report};

    /// Nothing is reported yet.
    pub(crate) fn new(alloc: Global) -> Reports {
        Reports {
            list: Vec::new(alloc),
            not_run: IndexMap::new(alloc),
            left_out: 0,
            elsewhere: 0,
        }
    }

    /// Adds a report behind the others.
    pub(crate) fn add(&mut self, at: At, kind: &'static str, what: String) -> Result<(), AllocError>
        ensures added { OnOk result (self.new.list.items ≡ self.old.list.items ++ record { at = at; kind = kind.entry; what = what } ∷ []) }
        ensures frame { self.new ≡ record self.old { list = self.new.list } }
    {
        self.list.push(Report { at, kind, what })?;
        Ok(())
    }

    /// Adds a report at an item.
    pub(crate) fn add_at_item<C: Codebase>(
        &mut self,
        names: &Names<'_, C>,
        position: InFile<FileAstId>,
        kind: &'static str,
        what: String,
    ) -> Result<(), AllocError> {
        self.add(at_spot(names.places.spot_of_item(position)), kind, what)
    }

    /// Counts what is left over and comes from a crate that is not given.
    pub(crate) fn leave_out(&mut self)
        ensures frame { self.new ≡ record self.old { left_out = self.new.left_out } }
    {
        self.left_out = self.left_out.saturating_add(1);
    }

    /// Counts a fault of the text of another crate.
    pub(crate) fn count_elsewhere(&mut self)
        ensures frame { self.new ≡ record self.old { elsewhere = self.new.elsewhere } }
    {
        self.elsewhere = self.elsewhere.saturating_add(1);
    }

    /// Counts a macro that is not run.
    pub(crate) fn count_not_run(&mut self, what: String) -> Result<(), AllocError>
        ensures frame { self.new ≡ record self.old { not_run = self.new.not_run } }
    {
        let count = self.not_run.entry(what)?.or_insert(0);
        *count = count.saturating_add(1);
        Ok(())
    }

    /// Puts the reports in the order of files and lines.
    pub(crate) fn sort<C: Codebase>(&mut self, names: &Names<'_, C>) -> Result<(), AllocError> {
        self.list.sort_by_key(|report| order_of(names, report))?;
        Ok(())
    }
}
