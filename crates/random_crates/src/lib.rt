//! Makes random workspaces of small crates, collects each, and looks at all that can be said of the
//! answer without a second collector. The first that is wrong is printed as a row.
#![tactic(auto)]

mod again;
mod answer;
mod counts;
mod declared;
mod dice;
mod draft;
mod globs;
mod grammar;
mod imports;
mod reports;
mod rows;

use again::fault_of_again;
use answer::{Answer, answer_of};
use counts::Counts;
use declared::fault_of_declarations;
use def_workspace::{Fault, Fixture, Part, Workspace, collect, read_row};
use globs::fault_of_globs;
use grammar::Grammar;
use imports::fault_of_imports;
use reports::fault_of_reports;
use rows::random_row;
use std::alloc::{AllocError, Global};
use std::io::Write;

/// Which rows are made.
#[derive(Clone, Copy)]
pub struct Request {
    /// The same seed gives the same rows.
    pub seed: u64,
    pub count: u64,
    /// Whether all that is counted is told.
    pub tells_all: bool,
}

/// What does not hold of an answer, if something does not.
fn fault_of_answer(alloc: Global, answer: &Answer<'_>) -> Result<Option<&'static str>, AllocError> {
    let fault = fault_of_globs(answer)
        .or(fault_of_declarations(answer))
        .or(fault_of_imports(answer));
    match fault {
        Some(fault) => Ok(Some(fault)),
        None => fault_of_reports(alloc, answer),
    }
}

/// What does not hold of the answer to a row, if something does not. What the answer has is
/// counted.
fn fault_of_row(
    alloc: Global,
    row: &Fixture<'_>,
    counts: &mut Counts,
) -> Result<Option<&'static str>, Fault> {
    let mut workspace = Workspace::new(alloc, row)?;
    let Some(collected) = collect(&mut workspace, row)? else {
        return Ok(None);
    };
    let answer = answer_of(&workspace, row, &collected);
    counts.add(&answer);
    let fault = fault_of_answer(alloc, &answer)?;
    // For a block its crate was collected too, which a crate below may ask for in a second run.
    let is_known = !answer.is_alone && answer.module(0).map.block.is_some();
    if fault.is_some() || is_known {
        return Ok(fault);
    }
    fault_of_again(&mut workspace, row, &collected)
}

/// Makes the rows that are asked for and looks at their answers, up to one that is wrong, which it
/// prints with what does not hold. Answers whether all are right, and nothing that is counted is
/// rare.
pub fn try_rows<W: Write>(alloc: Global, asked: Request, out: &mut W) -> Result<bool, Fault> {
    let grammar = Grammar::new(alloc)?;
    let mut counts = Counts::new();
    for number in 0..asked.count {
        let text = random_row(alloc, &grammar, asked.seed, number)?;
        let part = Part {
            text: text.as_str(),
            line: 1,
        };
        let row = read_row(alloc, part)?;
        if let Some(fault) = fault_of_row(alloc, &row, &mut counts)? {
            writeln!(out, "# {fault}\n\n== {text}")?;
            return Ok(false);
        }
    }
    let count = asked.count;
    writeln!(out, "{count} workspaces")?;
    Ok(counts.write(out, asked.tells_all)?)
}
