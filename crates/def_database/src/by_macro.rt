//! What was written down of calls, by the places where they stand and the macros that are found there.
ghost use Rattle.std.specs.Prelude.{◌≡◌, Some, cond, option_copied, OnOk, OnErr};
ghost use Rattle.def_ids.specs.Equality.{macro_eq};
ghost use Rattle.def_ids.specs.declared.ids.MacroId.{MacroId};
ghost use Rattle.def_database.specs.ByMacro.{said, said_at, with_any_said, with_said};

use def_ids::MacroId;
use def_interner::Exact;
use indexmap::IndexMap;
use std::alloc::{AllocError, Global};
use std::hash::Hash;

/// What was written down of the calls at a place: for each macro that may be found there, and for all
/// others.
pub struct ByMacro<A> {
    pub each: IndexMap<MacroId, A>,
    pub others: Option<A>,
}

impl<A: Drop> Drop for ByMacro<A> {
    fn drop(self) {
        let ByMacro { each: _, others: _ } = self;
    }
}

impl<A: Drop> ByMacro<A> {
    /// One answer for whichever macro is found, or none.
    fn whichever(alloc: Global, answer: Option<A>) -> ByMacro<A>
        ensures { (m : MacroId) → said (Some result) m ≡ answer }
    {
        ByMacro {
            each: IndexMap::new(alloc),
            others: answer,
        }
    }

    /// The answer for where this macro is found.
    fn get(&self, macro_id: MacroId) -> Option<&A>
        ensures { option_copied result ≡ said (Some self.now) macro_id }
    {
        match self.each.get(&macro_id) {
            Some(answer) => Some(answer),
            None => self.others.as_ref(),
        }
    }

    /// Writes down an answer for where this macro is found.
    fn set(&mut self, macro_id: MacroId, answer: A) -> Result<(), AllocError>
        ensures ok { OnOk result ((m : MacroId) → said (Some self.new) m ≡ cond (macro_eq macro_id m) (Some answer) (said (Some self.old) m)) }
        ensures err { OnErr result ((m : MacroId) → said (Some self.new) m ≡ said (Some self.old) m) }
    {
        self.each.insert(macro_id, answer)?;
        Ok(())
    }
}

/// The answer that was written down of a place, for where this macro is found.
pub(crate) fn answer_at<P: Copy + Eq + Hash, A: Drop>(
    written: &IndexMap<P, ByMacro<A>>,
    place: P,
    macro_id: MacroId,
) -> Option<&A>
    ensures { option_copied result ≡ said_at P.eq written.now place macro_id }
{
    match written.get(&place) {
        Some(of_place) => of_place.get(macro_id),
        None => None,
    }
}

/// Writes down an answer of a place, for where this macro is found.
pub(crate) fn write_for<P: Copy + Exact + Hash, A: Drop>(
    written: &mut IndexMap<P, ByMacro<A>>,
    place: P,
    macro_id: MacroId,
    answer: A,
) -> Result<(), AllocError>
    ensures ok { OnOk result (said_at P.eq written.new ≡ with_said P.eq (said_at P.eq written.old) place macro_id answer) }
    ensures err { OnErr result (said_at P.eq written.new ≡ said_at P.eq written.old) }
{
    let alloc = *written.allocator();
    let of_place = written
        .entry(place)?
        .or_insert(ByMacro::whichever(alloc, None));
    of_place.set(macro_id, answer)?;
    Ok(())
}

/// Writes down an answer of a place, for whichever macro is found. Of the place nothing else stays.
pub(crate) fn write_for_any<P: Copy + Eq + Hash, A: Drop>(
    written: &mut IndexMap<P, ByMacro<A>>,
    place: P,
    answer: A,
) -> Result<(), AllocError>
    ensures ok { OnOk result (said_at P.eq written.new ≡ with_any_said P.eq (said_at P.eq written.old) place answer) }
    ensures err { OnErr result (said_at P.eq written.new ≡ said_at P.eq written.old) }
{
    let alloc = *written.allocator();
    written.insert(place, ByMacro::whichever(alloc, Some(answer)))?;
    Ok(())
}
