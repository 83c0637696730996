//! Measures how long the definitions of a synthetic crate take to be collected.

use crate::assoc;
use crate::database::OneFile;
use crate::figures::{Figures, lesser, print_head, print_line};
use crate::places::{Place, places_of, time_places};
use crate::texts::{add_given, items_in, read_tree};
use def_collector::{Collected, collect_defs};
use def_ids::Edition;
use def_interner::Interner;
use def_map::DefMap;
use item_tree::{Crate, FileId, HirFileId, TreeId};
use std::alloc::{AllocError, Global};
use std::io;
use std::rt::Clock;
use std::time::{Duration, Instant};

/// A small crate is measured so often that this many items come together, and any once. The
/// fastest time counts.
const ITEMS_IN_ALL: usize = 1_000_000;

const MOST_TIMES: usize = 40;

/// The tree of the one file.
const ROOT: TreeId = TreeId {
    file: HirFileId::File(FileId(0)),
    block: None,
};

/// A table in work: the first line of the crates that it is of, and what was measured of the last
/// one.
#[derive(Drop)]
pub struct Table {
    head: String,
    smaller: Option<Figures>,
}

/// What one run gave: how many items the crate has, what its calls gave, the places that are bound,
/// and the time.
#[derive(Drop)]
struct Run {
    items: usize,
    given: usize,
    places: Vec<Place>,
    time: Duration,
}

/// Collects the definitions of a crate.
pub fn collect(
    alloc: Global,
    one: &OneFile,
    session: &mut Interner,
) -> Result<Collected, AllocError> {
    let seeded = DefMap::seed(alloc, Crate(0), Edition::Edition2021, None)?;
    collect_defs(alloc, one, session, seeded, ROOT, None)
}

/// The places that a run bound, if it left no import and no call over.
fn places_in(alloc: Global, collected: &Collected) -> io::Result<Vec<Place>> {
    if !collected.outcome.imports.is_empty() {
        return Err(io::Error::other("an import is left over"));
    }
    if !collected.outcome.macros.is_empty() {
        return Err(io::Error::other("a call is left over"));
    }
    if collected.outcome.limit_met {
        return Err(io::Error::other("the limit of rounds is met"));
    }
    Ok(places_of(alloc, &collected.def_map)?)
}

/// What one run over a crate gave.
fn run_of(
    one: &OneFile,
    places: io::Result<Vec<Place>>,
    time: io::Result<Duration>,
) -> io::Result<Run> {
    let time = time?;
    Ok(Run {
        items: items_in(&one.tree),
        given: one.expansions.len(),
        places: places?,
        time,
    })
}

/// Collects the definitions of a crate, and times that.
fn time_collect<C: Clock>(
    alloc: Global,
    clock: &C,
    one: &OneFile,
    session: &mut Interner,
) -> io::Result<Run> {
    let start = Instant::now(clock)?;
    let collected = collect(alloc, one, session)?;
    let time = start.elapsed(clock);
    run_of(one, places_in(alloc, &collected), time)
}

/// One run over a crate, once what its calls give is read.
fn run_over<C: Clock>(
    alloc: Global,
    clock: &C,
    given: &str,
    session: &mut Interner,
    one: &mut OneFile,
) -> io::Result<Run> {
    add_given(alloc, session, given, one)?;
    time_collect(alloc, clock, one, session)
}

/// One run over the crate of a text, under names of a session.
fn run_in<C: Clock>(
    alloc: Global,
    clock: &C,
    text: &str,
    session: &mut Interner,
) -> io::Result<Run> {
    let (file, given) = text.split_once("-- gives\n").unwrap_or((text, ""));
    let mut one = OneFile::new(alloc, read_tree(alloc, session, file)?);
    run_over(alloc, clock, given, session, &mut one)
}

/// One run over the crate of a text.
fn run_once<C: Clock>(alloc: Global, clock: &C, text: &str) -> io::Result<Run> {
    let mut session = Interner::new(alloc)?;
    run_in(alloc, clock, text, &mut session)
}

/// How long the definitions of a crate take to be collected, whatever is left over.
fn time_of<C: Clock>(
    alloc: Global,
    clock: &C,
    one: &OneFile,
    session: &mut Interner,
) -> io::Result<Duration> {
    let start = Instant::now(clock)?;
    let _collected = collect(alloc, one, session)?;
    start.elapsed(clock)
}

/// One run over the crate of a text whose lines are counted, under names of a session.
fn run_lines<C: Clock>(
    alloc: Global,
    clock: &C,
    text: &str,
    session: &mut Interner,
) -> io::Result<Figures> {
    let (file, given) = text.split_once("-- gives\n").unwrap_or((text, ""));
    let mut one = OneFile::new(alloc, read_tree(alloc, session, file)?);
    add_given(alloc, session, given, &mut one)?;
    Ok(Figures {
        items: items_in(&one.tree),
        counted: text.lines().count(),
        time: time_of(alloc, clock, &one, session)?,
        places_time: None,
    })
}

/// What is measured of a text whose lines are counted, once.
fn measure_lines<C: Clock>(alloc: Global, clock: &C, text: &str) -> io::Result<Figures> {
    let mut session = Interner::new(alloc)?;
    run_lines(alloc, clock, text, &mut session)
}

/// What is measured, once.
fn measure_once<C: Clock>(
    alloc: Global,
    clock: &C,
    counted: &str,
    text: &str,
) -> io::Result<Figures> {
    match counted {
        "items" => return assoc::measure(alloc, clock, text),
        "lines" => return measure_lines(alloc, clock, text),
        _ => {}
    }
    let run = run_once(alloc, clock, text)?;
    let (counted, places_time) = match counted {
        "rounds" => (run.given, None),
        _ => {
            let time = time_places(alloc, clock, run.places.as_slice())?;
            (run.places.len(), Some(time))
        }
    };
    Ok(Figures {
        items: run.items,
        counted,
        time: run.time,
        places_time,
    })
}

/// The least times of some measurements.
fn measure<C: Clock>(alloc: Global, clock: &C, counted: &str, text: &str) -> io::Result<Figures> {
    let mut figures = measure_once(alloc, clock, counted, text)?;
    let times = (ITEMS_IN_ALL / figures.items.max(1)).clamp(1, MOST_TIMES);
    for _ in 1..times {
        figures = lesser(figures, measure_once(alloc, clock, counted, text)?);
    }
    Ok(figures)
}

impl Table {
    /// No table yet.
    pub fn new(alloc: Global) -> Table {
        Table {
            head: String::new(alloc),
            smaller: None,
        }
    }

    /// Begins a table, if the last one is not of crates with this first line.
    fn begin<W: io::Write>(
        &mut self,
        alloc: Global,
        out: &mut W,
        head: &str,
        title: &str,
        counted: &str,
    ) -> io::Result<()> {
        if self.head.as_str() == head {
            return Ok(());
        }
        self.head = String::from_str(alloc, head)?;
        self.smaller = None;
        print_head(out, title, counted)
    }
}

/// Measures the crate of a text, and prints a line, below the head of a table if it begins one.
pub fn measure_text<C: Clock, W: io::Write>(
    alloc: Global,
    clock: &C,
    out: &mut W,
    table: &mut Table,
    text: &str,
) -> io::Result<()> {
    let Some((head, text)) = text.split_once('\n') else {
        return Err(io::Error::other("the text has one line"));
    };
    let Some((counted, title)) = head.split_once(": ") else {
        return Err(io::Error::other("the first line does not say what is counted"));
    };
    table.begin(alloc, out, head, title, counted)?;
    let figures = measure(alloc, clock, counted, text)?;
    print_line(out, figures, table.smaller)?;
    table.smaller = Some(figures);
    Ok(())
}
