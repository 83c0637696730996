//! What single words stand for. Places and macros are written as in the lines that are shown.

use crate::fault::{Stop, push};
use crate::fixture::{Asked, CalledBy, Unknown};
use crate::parts::Words;
use bitflags::Flags;
use def_ids::{
    BuiltinAttr, Edition, ImplId, Macro2Id, MacroId, MacroRulesId, ProcMacroId, TraitId,
};
use def_oracle::LangCrate;
use item_tree::{FileId, HirFileId, MacroCallId, MacroCallStyles};

/// The number that a word is.
pub fn number(word: &str) -> Option<usize> {
    word.parse::<usize>().ok()
}

/// The number of 32 bits that a word is.
pub fn small_number(word: &str) -> Option<u32> {
    word.parse::<u32>().ok()
}

/// Adds the numbers of 32 bits that are left of some words.
pub fn numbers(list: &mut Vec<u32>, words: &mut Words<'_>) -> Result<(), Stop> {
    for _ in 0..words.left.len() {
        match words.next() {
            "" => break,
            word => push(list, small_number(word))?,
        }
    }
    Ok(())
}

/// Adds the words that are left.
pub fn names<'t>(list: &mut Vec<&'t str>, words: &mut Words<'t>) -> Result<(), Stop> {
    for _ in 0..words.left.len() {
        match words.next() {
            "" => break,
            word => push(list, Some(word))?,
        }
    }
    Ok(())
}

/// A trait or an impl, by its number.
pub fn asked(words: &mut Words<'_>) -> Option<Asked> {
    match words.next() {
        "trait" => Some(Asked::Trait(TraitId(number(words.next())?))),
        "impl" => Some(Asked::Impl(ImplId(number(words.next())?))),
        _ => None,
    }
}

/// The crate of the language that has this name.
pub fn lang(word: &str) -> Option<LangCrate> {
    match word {
        "core" => Some(LangCrate::Core),
        "std" => Some(LangCrate::Std),
        _ => None,
    }
}

/// What an oracle does not know.
pub fn unknown(word: &str) -> Option<Unknown> {
    match word {
        "files" => Some(Unknown::Files),
        "crates" => Some(Unknown::Crates),
        "variants" => Some(Unknown::Variants),
        "maps" => Some(Unknown::Maps),
        "finished-maps" => Some(Unknown::FinishedMaps),
        "local-maps" => Some(Unknown::LocalMaps),
        "items" => Some(Unknown::Items),
        _ => None,
    }
}

/// The edition of a year.
pub fn edition(word: &str) -> Option<Edition> {
    match word {
        "2015" => Some(Edition::Edition2015),
        "2018" => Some(Edition::Edition2018),
        "2021" => Some(Edition::Edition2021),
        "2024" => Some(Edition::Edition2024),
        _ => None,
    }
}

/// A file: its number, or the number of the macro call that it is the expansion of behind an `m`.
pub fn file_of(word: &str) -> Option<HirFileId> {
    match word.strip_prefix('m') {
        Some(call) => Some(HirFileId::Macro(MacroCallId(number(call)?))),
        None => Some(HirFileId::File(FileId(number(word)?))),
    }
}

/// Where an item stands: its file and its number, as `0:1` or `m0:1`.
pub fn place(word: &str) -> Option<(HirFileId, usize)> {
    let (file, item) = word.split_once(':')?;
    Some((file_of(file)?, number(item)?))
}

/// Two numbers with a mark between them.
fn pair(word: &str, mark: char) -> Option<(usize, usize)> {
    let (first, second) = word.split_once(mark)?;
    Some((number(first)?, number(second)?))
}

/// A macro: its kind and its number, as `macro:0`.
pub fn macro_of(word: &str) -> Option<MacroId> {
    let (kind, id) = word.split_once(':')?;
    let id = number(id)?;
    match kind {
        "macro_rules" => Some(MacroId::MacroRules(MacroRulesId(id))),
        "macro" => Some(MacroId::Macro2(Macro2Id(id))),
        "proc_macro" => Some(MacroId::ProcMacro(ProcMacroId(id))),
        _ => None,
    }
}

/// By what a macro is called: `attr`, or a path of a derive list, by the number of its attribute and
/// its place, as `derive:0.1`.
pub fn called_by(word: &str) -> Option<CalledBy> {
    if word == "attr" {
        return Some(CalledBy::Attr);
    }
    let (attr, pos) = pair(word.strip_prefix("derive:")?, '.')?;
    Some(CalledBy::Derive { attr, pos })
}

/// A builtin attribute by its name, or by the number of another one.
pub fn builtin_attr(word: &str) -> Option<BuiltinAttr> {
    match word {
        "test" => Some(BuiltinAttr::Test),
        "bench" => Some(BuiltinAttr::Bench),
        "test_case" => Some(BuiltinAttr::TestCase),
        "derive" => Some(BuiltinAttr::Derive),
        _ => Some(BuiltinAttr::Other(small_number(word)?)),
    }
}

/// A way in which a macro may be called.
fn style(word: &str) -> Option<MacroCallStyles> {
    match word {
        "fn" => Some(MacroCallStyles::FN_LIKE),
        "attr" => Some(MacroCallStyles::ATTR),
        "derive" => Some(MacroCallStyles::DERIVE),
        _ => None,
    }
}

/// The ways in which a macro may be called, by the words that are left.
pub fn styles(words: &mut Words<'_>) -> Option<MacroCallStyles> {
    let mut styles = MacroCallStyles::empty();
    for _ in 0..words.left.len() {
        match words.next() {
            "" => break,
            word => styles = styles.union(style(word)?),
        }
    }
    Some(styles)
}
