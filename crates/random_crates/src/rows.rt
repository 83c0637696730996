//! Rows that are made at random: a workspace of one crate, or of two, and perhaps with a block.

use crate::dice::Dice;
use crate::draft::{Draft, Due};
use crate::grammar::Grammar;
use item_tree::{FileId, HirFileId, MacroCallId};
use std::alloc::{AllocError, Global};

/// How many calls are answered at most, each where several macros may be found.
const MOST_CALLS: usize = 12;

/// The macros that may be found for a call: nobody knows which number one gets.
static MACROS: [&str; 9] = [
    " of macro_rules:0",
    " of macro_rules:1",
    " of macro_rules:2",
    " of macro:0",
    " of macro:1",
    " of macro:2",
    " of macro:3",
    " of macro:4",
    " of proc_macro:0",
];

/// Adds a file of a number.
fn add_file(draft: &mut Draft<'_>, number: usize, items: &'static str) {
    draft.text.say("\n-- file\n");
    draft.write_file(HirFileId::File(FileId(number)), items);
}

/// Adds the files: an empty one, in which a block stands, those of the roots of crates, and two of
/// modules.
fn add_files(draft: &mut Draft<'_>, has_other: bool) {
    add_file(draft, 0, "");
    add_file(draft, 1, "%r");
    add_file(draft, 2, if has_other { "%r" } else { "" });
    add_file(draft, 3, "%u%I%I");
    add_file(draft, 4, "%u%I%I%I");
}

/// Adds a block of the crate that is shown, now and then.
fn add_block(draft: &mut Draft<'_>) {
    if draft.dice.once_in(4) {
        draft.write("\n-- block depth %v\n");
        draft.write_file(HirFileId::File(FileId(0)), "%u%u%I%I%I%I%I%I");
    }
}

/// Begins the section of a call, where this macro is found.
fn begin_call(draft: &mut Draft<'_>, due: Due, found: &str) {
    draft.text.say("\n-- call at ");
    draft.text.say_place(due.file, due.item);
    draft.text.say(found);
    draft.text.say(due.by);
}

/// Lets a call be answered as an earlier one is, where some other macros are found. Answers the
/// number of the next call.
fn add_same(draft: &mut Draft<'_>, due: Due, call: usize) -> usize {
    let mut next = call.saturating_add(1);
    for found in &MACROS {
        if !draft.dice.once_in(4) {
            begin_call(draft, due, found);
            draft.text.say(" same ");
            draft.text.say_number(call);
            next = next.saturating_add(1);
        }
    }
    next
}

/// Adds a call of a number with its expansion, in which further calls may stand. Answers the number
/// of the next call.
fn add_call(draft: &mut Draft<'_>, due: Due, call: usize) -> usize {
    begin_call(draft, due, " of macro:0");
    draft.write("%a\n");
    draft.write_file(HirFileId::Macro(MacroCallId(call)), "%s%I%I%I");
    add_same(draft, due, call)
}

/// Adds the calls that are to be answered, but for those that are too many.
fn add_calls(draft: &mut Draft<'_>) {
    let mut next = 0;
    for number in 0..MOST_CALLS {
        let due = draft.due.get(number).copied();
        if let Some(due) = due {
            if !draft.dice.once_in(8) {
                next = add_call(draft, due, next);
            }
        }
    }
}

/// The row of a number among those of a seed, from behind the mark with which rows begin.
pub fn random_row(
    alloc: Global,
    grammar: &Grammar,
    seed: u64,
    number: u64,
) -> Result<String, AllocError> {
    let mut draft = Draft::new(alloc, Dice::new(seed, number), grammar);
    let mut row = format!(in alloc; "workspace {number} of seed {seed}\n")?;
    draft.write("%h");
    let has_other = draft.text.text.as_str().starts_with("crate 1");
    draft.write(if has_other { "%J" } else { "" });
    row.push_str(draft.text.text.as_str())?;
    draft.text.text.clear();
    add_files(&mut draft, has_other);
    add_block(&mut draft);
    add_calls(&mut draft);
    if draft.text.is_refused || draft.styles.is_refused {
        return Err(AllocError);
    }
    // Lines on styles come first, but are known last.
    row.push_str(draft.styles.text.as_str())?;
    row.push_str(draft.text.text.as_str())?;
    row.push_str("\n-- shows\n\n")?;
    Ok(row)
}
