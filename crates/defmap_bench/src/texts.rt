//! Crates that are read from texts.

use crate::database::OneFile;
use def_interner::Interner;
use def_scripted::{ReadFault, ReadFile, read};
use item_tree::{ItemTree, ModItemId};
use std::alloc::Global;
use std::io;

/// The tree of a text, under names of a session.
pub fn read_tree(alloc: Global, session: &mut Interner, text: &str) -> io::Result<ItemTree> {
    match read(alloc, session, text) {
        Ok(ReadFile { tree, .. }) => Ok(tree),
        Err(ReadFault::Memory) => Err(io::Error::other("memory was refused")),
        Err(ReadFault::Byte(_)) => Err(io::Error::other("the crate cannot be read")),
    }
}

/// Adds what calls give, with a line for each by their numbers.
pub fn add_given(
    alloc: Global,
    session: &mut Interner,
    lines: &str,
    one: &mut OneFile,
) -> io::Result<()> {
    for line in lines.lines() {
        one.expansions.push(read_tree(alloc, session, line)?)?;
    }
    Ok(())
}

/// How many items a tree has.
pub fn items_in(tree: &ItemTree) -> usize {
    for number in 0..usize::MAX {
        if tree.index(ModItemId(number)).is_none() {
            return number;
        }
    }
    usize::MAX
}
