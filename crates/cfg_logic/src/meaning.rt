//! Whether a predicate holds: its parts are gone through once, with a stack of what is open.

ghost use Rattle.std.specs.Prelude.{◌≡◌, IfOk, option_map};
ghost use Rattle.cfg_logic.specs.Mirrors.{Mirrors, Follows, answer, frame_of};
ghost use Rattle.cfg_logic.specs.Predicates.{Predicate, State, Opened, nothing, means, with_predicate, closed as closed_of, take_one, open_group, close_group, pass_comma, step, whole as whole_of, start, read};
ghost use Rattle.cfg_logic.specs.Written.{IsWritten};
ghost use Rattle.cfg_logic.specs.declared.options.CfgOptions.{CfgOptions};

use crate::fault::CfgFault;
use crate::options::CfgOptions;
use crate::part::{CfgPart, Group};
use std::alloc::{AllocError, Global};

/// How many predicates a group has.
#[derive(Clone, Copy, PartialEq, Eq)]
enum Number {
    Zero,
    One,
    Several,
}

/// A group that is open: how many predicates it has so far, and whether all of them hold, or any.
#[derive(Clone, Copy)]
struct Frame {
    group: Group,
    number: Number,
    holds: bool,
}

/// A predicate of which a part has been read.
#[derive(Drop)]
struct Reading {
    /// The groups around the innermost one.
    outer: Vec<Frame>,
    /// The innermost group. The whole is one that has a single predicate, as `not(..)` has.
    inner: Frame,
    /// Whether a predicate may come: none has since the group opened, or a comma stands after it.
    is_ready: bool,
}

/// A group that has just been opened.
fn opened(group: Group) -> Frame
    ensures { (o : CfgOptions) → result ≡ frame_of o (record { group = group; predicates = nothing }) }
{
    Frame {
        group,
        number: Number::Zero,
        holds: group == Group::All,
    }
}

/// A group with one more predicate, which holds or not.
fn with_one(frame: Frame, holds: bool) -> Frame
    ensures { (o : CfgOptions) → (g : Opened) → (p : Predicate) → frame ≡ frame_of o g → holds ≡ means o p → result ≡ frame_of o (with_predicate g p) }
{
    Frame {
        group: frame.group,
        number: match frame.number {
            Number::Zero => Number::One,
            Number::One | Number::Several => Number::Several,
        },
        holds: if frame.group == Group::All {
            frame.holds && holds
        } else {
            frame.holds || holds
        },
    }
}

/// Whether a group holds that is closed; none, if it may not have as many predicates as it has.
fn closed(frame: Frame) -> Option<bool>
    ensures { (o : CfgOptions) → (g : Opened) → frame ≡ frame_of o g → result ≡ option_map (means o) (closed_of g.group g.predicates) }
{
    match frame.group {
        Group::All | Group::Any => Some(frame.holds),
        Group::Not if frame.number == Number::One => Some(!frame.holds),
        Group::Not => None,
    }
}

impl Reading {
    /// Nothing has been read.
    fn new(alloc: Global) -> Reading
        ensures { (o : CfgOptions) → Mirrors o start result }
    {
        Reading {
            outer: Vec::new(alloc),
            inner: opened(Group::Not),
            is_ready: true,
        }
    }

    /// Takes a predicate that is no group.
    fn take(&mut self, holds: bool) -> Result<(), CfgFault>
        ensures { (o : CfgOptions) → (s : State) → (p : Predicate) → Mirrors o s self.old → holds ≡ means o p → Follows o (take_one s p) result self.new }
    {
        if !self.is_ready {
            return Err(CfgFault::WantedComma);
        }
        self.inner = with_one(self.inner, holds);
        self.is_ready = false;
        Ok(())
    }

    /// Opens a group.
    fn open(&mut self, group: Group) -> Result<Result<(), CfgFault>, AllocError>
        ensures { IfOk result (λ r. (o : CfgOptions) → (s : State) → Mirrors o s self.old → Follows o (open_group s group) r self.new) }
    {
        if !self.is_ready {
            return Ok(Err(CfgFault::WantedComma));
        }
        self.outer.push(self.inner)?;
        self.inner = opened(group);
        Ok(Ok(()))
    }

    /// Closes the innermost group.
    fn close(&mut self) -> Result<(), CfgFault>
        ensures { (o : CfgOptions) → (s : State) → Mirrors o s self.old → Follows o (close_group s) result self.new }
    {
        let Some(holds) = closed(self.inner) else {
            return Err(CfgFault::WantedOne);
        };
        let Some(outer) = self.outer.pop() else {
            return Err(CfgFault::WantedPredicate);
        };
        self.inner = with_one(outer, holds);
        self.is_ready = false;
        Ok(())
    }

    /// Goes over a comma.
    fn comma(&mut self) -> Result<(), CfgFault>
        ensures { (o : CfgOptions) → (s : State) → Mirrors o s self.old → Follows o (pass_comma s) result self.new }
    {
        if self.is_ready {
            return Err(CfgFault::WantedPredicate);
        }
        self.is_ready = true;
        Ok(())
    }

    /// Goes over a part.
    fn part(
        &mut self,
        part: &CfgPart,
        options: &CfgOptions,
    ) -> Result<Result<(), CfgFault>, AllocError>
        ensures { IfOk result (λ r. (s : State) → Mirrors options.now s self.old → Follows options.now (step s part.now) r self.new) }
    {
        match part {
            CfgPart::Open(group) => self.open(*group),
            CfgPart::Close => Ok(self.close()),
            CfgPart::Comma => Ok(self.comma()),
            CfgPart::Truth(holds) => Ok(self.take(*holds)),
            CfgPart::Word(name) => Ok(self.take(options.has_flag(name.as_str()))),
            CfgPart::Pair(key, value) => {
                Ok(self.take(options.has_value(key.as_str(), value.as_str())))
            }
        }
    }

    /// Whether what was read holds; none, if it is no predicate.
    fn whole(&self) -> Option<bool>
        ensures { (o : CfgOptions) → (s : State) → Mirrors o s self.now → result ≡ option_map (means o) (whole_of s) }
    {
        if !self.outer.is_empty() || self.inner.number != Number::One {
            return None;
        }
        Some(self.inner.holds)
    }
}

/// Goes over all parts, and answers whether their predicate holds.
fn evaluate_parts(
    alloc: Global,
    parts: &[CfgPart],
    options: &CfgOptions,
) -> Result<Result<bool, (CfgFault, usize)>, AllocError>
    ensures { IfOk result (λ r. answer r ≡ option_map (means options.now) (read parts.now)) }
{
    let mut reading = Reading::new(alloc);
    for (at, part) in parts.iter().enumerate() {
        if let Err(fault) = reading.part(part, options)? {
            return Ok(Err((fault, at)));
        }
    }
    match reading.whole() {
        Some(holds) => Ok(Ok(holds)),
        None => Ok(Err((CfgFault::WantedOne, parts.len()))),
    }
}

/// Whether the predicate holds that has these parts, or what is wrong with it, and at which of them.
pub fn evaluate(
    alloc: Global,
    parts: &[CfgPart],
    options: &CfgOptions,
) -> Result<Result<bool, (CfgFault, usize)>, AllocError>
    ensures meaning { IfOk result (λ r. answer r ≡ option_map (means options.now) (read parts.now)) }
    ensures written { IfOk result (λ r. (p : Predicate) → IsWritten p parts.now → r ≡ Ok (means options.now p)) }
{
    evaluate_parts(alloc, parts, options)
}
