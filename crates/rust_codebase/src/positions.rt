//! Where items stand in texts.

use crate::codebase::Codebase;
use crate::read::ReadFile;
use item_tree::{FileAstId, InFile};
use rust_items::Item;
use rust_lexer::Token;

/// The position of the outermost call that brought an item, or its own where none did.
pub fn outermost<C: Codebase>(codebase: &C, position: InFile<FileAstId>) -> InFile<FileAstId> {
    let mut at = position;
    let depth = codebase.read(position.file).map_or(0, |read| read.depth);
    // Each turn goes out of an expansion.
    for _ in 0..depth {
        match codebase.read(at.file).and_then(|read| read.call) {
            Some(call) => at = call,
            None => break,
        }
    }
    at
}

/// What was read of the file or the expansion in which an item stands, and the item.
pub fn item_at<C: Codebase>(
    codebase: &C,
    position: InFile<FileAstId>,
) -> Option<(&ReadFile, &Item)> {
    let read = codebase.read(position.file)?;
    let item = read.list.items.get(position.value.0)?;
    Some((read, item))
}

/// The token that tells an item: its name, or else its first one.
pub fn token_of_item(read: &ReadFile, item: &Item) -> Option<Token> {
    match item.name {
        Some(name) => Some(name),
        None => read.trees.get(item.tokens.from as usize),
    }
}
