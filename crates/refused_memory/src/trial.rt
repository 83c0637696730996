//! What is done over and over in a workspace, each time with another request for memory refused.

use crate::counts::Counts;
use crate::locations::knows_all;
use crate::refusal::{MOST, end, refuse};
use def_workspace::{Fault, Workspace};
use std::alloc::Global;
use std::{io, mem};

/// What is done in a workspace.
pub trait Trial {
    type Answer: Drop;

    /// A workspace in which all that it needs is there.
    fn ready(&self, alloc: Global) -> Result<Workspace, Fault>;

    /// Does it.
    fn answer(&self, workspace: &mut Workspace) -> Result<Self::Answer, Fault>;

    /// Writes what was answered, as lines.
    fn write(
        &self,
        workspace: &Workspace,
        answer: &Self::Answer,
        lines: &mut Vec<u8>,
    ) -> Result<(), Fault>;
}

/// What is known of a trial beforehand: a session in which all is ready, and the lines that are
/// answered in a new one.
#[derive(Drop)]
struct Known {
    ready: Workspace,
    lines: Vec<u8>,
}

/// How a turn ended in which a request was to be refused.
enum Turn {
    Refused,
    /// There was no such request.
    Whole,
    /// It is not as it should be.
    Wrong(&'static str),
}

/// Does it in a workspace, with ample memory, and answers the lines.
fn lines_in<T: Trial>(trial: &T, workspace: &mut Workspace) -> Result<Vec<u8>, Fault> {
    let answer = trial.answer(workspace)?;
    let mut lines = Vec::new(workspace.alloc);
    trial.write(workspace, &answer, &mut lines)?;
    Ok(lines)
}

/// Looks at what is left of a workspace whose turn was refused memory: its session knows what it
/// knew, and a second turn, in the same session and with ample memory, answers what a new one does.
fn after<T: Trial>(trial: &T, known: &Known, mut left: Workspace) -> Result<Turn, Fault> {
    if !knows_all(&known.ready.session, &left.session) {
        return Ok(Turn::Wrong("an id has lost its location"));
    }
    let mut again = trial.ready(left.alloc)?;
    mem::swap(&mut again.session, &mut left.session);
    let lines = lines_in(trial, &mut again)?;
    if lines.as_slice() == known.lines.as_slice() {
        Ok(Turn::Refused)
    } else {
        Ok(Turn::Wrong("the second turn has other lines"))
    }
}

/// Whether an answer has the lines that are known.
fn is_known<T: Trial>(
    trial: &T,
    known: &Known,
    workspace: &Workspace,
    answer: &T::Answer,
) -> Result<bool, Fault> {
    let mut lines = Vec::new(workspace.alloc);
    trial.write(workspace, answer, &mut lines)?;
    Ok(lines.as_slice() == known.lines.as_slice())
}

/// One turn, in which the request of this number is refused.
fn one_turn<T: Trial>(trial: &T, known: &Known, number: usize) -> Result<Turn, Fault> {
    let alloc = known.ready.alloc;
    let mut workspace = trial.ready(alloc)?;
    refuse(alloc, number);
    let answered = trial.answer(&mut workspace);
    let is_refused = end(alloc);
    match answered {
        Err(Fault::Memory) if is_refused => after(trial, known, workspace),
        Err(Fault::Memory) => Ok(Turn::Wrong("it wants memory that it was given")),
        Err(_) => Ok(Turn::Wrong("it ends with another fault")),
        Ok(answer) if !is_known(trial, known, &workspace, &answer)? => {
            Ok(Turn::Wrong("it answers other lines"))
        }
        Ok(_) if is_refused => Ok(Turn::Wrong("it answers, though it was refused memory")),
        Ok(_) => Ok(Turn::Whole),
    }
}

/// What is known of a trial.
fn known_of<T: Trial>(alloc: Global, trial: &T) -> Result<Known, Fault> {
    let ready = trial.ready(alloc)?;
    let mut workspace = trial.ready(alloc)?;
    let lines = lines_in(trial, &mut workspace)?;
    Ok(Known { ready, lines })
}

/// Refuses each request of a trial in turn, until there is none more, and counts them. A turn that
/// is wrong is told, and ends it.
pub fn refuse_each<T: Trial, W: io::Write>(
    alloc: Global,
    trial: &T,
    name: &str,
    counts: &mut Counts,
    out: &mut W,
) -> Result<(), Fault> {
    let Ok(known) = known_of(alloc, trial) else {
        writeln!(out, "{name}: it ends with a fault where memory is there")?;
        counts.add_done(false);
        return Ok(());
    };
    let mut why = "there is no end of its requests";
    for number in 1..MOST {
        match one_turn(trial, &known, number)? {
            Turn::Refused => counts.add_refused(),
            Turn::Whole => {
                counts.add_done(true);
                return Ok(());
            }
            Turn::Wrong(what) => {
                why = what;
                write!(out, "request {number} of ")?;
                break;
            }
        }
    }
    writeln!(out, "{name}: {why}")?;
    counts.add_done(false);
    Ok(())
}
