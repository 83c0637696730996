//! How long the items of a trait take to be collected.

use crate::database::{OneFile, OneTrait};
use crate::figures::Figures;
use crate::measure::collect;
use def_assoc::TraitItems;
use def_collector::Collected;
use def_ids::TraitId;
use def_interner::Interner;
use def_oracle::AssocList;
use def_scripted::{ReadFault, ReadFile, read};
use item_tree::ItemTree;
use std::alloc::{AllocError, Global};
use std::io;
use std::rt::Clock;
use std::time::Instant;

/// The one trait of the crate.
const TRAIT: TraitId = TraitId(0);

/// Collects the items of the trait. It is a call of its own, so that what it takes can be counted.
#[inline(never)]
fn query(alloc: Global, one: &OneFile, session: &mut Interner) -> Result<TraitItems, AllocError> {
    let (items, _) = TraitItems::query_with_diagnostics(alloc, one, session, TRAIT)?;
    Ok(items)
}

/// The tree of a text with one trait, and the items of that.
fn read_trait(
    alloc: Global,
    session: &mut Interner,
    text: &str,
) -> io::Result<(ItemTree, AssocList)> {
    let (tree, lists) = match read(alloc, session, text) {
        Ok(ReadFile { tree, assoc, .. }) => (tree, assoc),
        Err(ReadFault::Memory) => return Err(io::Error::other("memory was refused")),
        Err(ReadFault::Byte(_)) => return Err(io::Error::other("the crate cannot be read")),
    };
    match lists.into_vec().pop() {
        Some(last) => Ok((tree, last.list)),
        None => Err(io::Error::other("the text has no trait")),
    }
}

/// The trait of a crate that is collected.
fn one_trait(collected: Collected, written: AssocList, given: AssocList) -> OneTrait {
    let Collected {
        def_map,
        local_def_map,
        outcome: _,
        diagnostics: _,
    } = collected;
    OneTrait {
        def_map,
        local_def_map,
        written,
        given,
    }
}

/// Reads the crate of a text, and collects it.
fn read_crate(alloc: Global, session: &mut Interner, text: &str) -> io::Result<OneFile> {
    let (file, gives) = text.split_once("-- gives\n").unwrap_or((text, ""));
    let (tree, written) = read_trait(alloc, session, file)?;
    let (_, given) = read_trait(alloc, session, gives)?;
    let mut one = OneFile::new(alloc, tree);
    let collected = collect(alloc, &one, session)?;
    one.one_trait = Some(one_trait(collected, written, given));
    Ok(one)
}

/// What is measured of the trait of a text, once: how many items it has with those that calls give, and
/// the time. Behind `-- gives` stands a trait with the items that each call gives.
pub fn measure<C: Clock>(alloc: Global, clock: &C, text: &str) -> io::Result<Figures> {
    let mut session = Interner::new(alloc)?;
    let one = read_crate(alloc, &mut session, text)?;
    let start = Instant::now(clock)?;
    let found = query(alloc, &one, &mut session)?;
    let time = start.elapsed(clock)?;
    let count = found.items.len();
    Ok(Figures {
        items: count,
        counted: count,
        time,
        places_time: None,
    })
}
