//! The directories of modules, by their numbers.

use crate::calls::{CallTable, kept};
use def_parts::ModDir;
use item_tree::{ItemNode, ModItemId};
use std::alloc::AllocError;

/// Gives items the directory of what they stand in.
pub(crate) fn give_directory(directories: &mut [Option<u32>], items: &[ModItemId], directory: u32) {
    for item in items {
        if let Some(of_item) = directories.get_mut(item.0) {
            *of_item = Some(directory);
        }
    }
}

/// Adds a directory, and answers its number.
pub(crate) fn add_directory(calls: &mut CallTable, dir: ModDir) -> Result<u32, AllocError> {
    let number = kept(calls.directories.len());
    calls.directories.push(dir)?;
    Ok(number)
}

/// Adds the directory of a module in braces. None where it lies too deep.
pub(crate) fn descend(
    calls: &mut CallTable,
    directory: u32,
    name: &str,
    node: &ItemNode,
) -> Result<Option<u32>, AllocError> {
    let Some(dir) = calls.directories.get(directory as usize) else {
        return Ok(None);
    };
    match dir.descend_into_definition(name, node.path_attr())? {
        Some(inner) => Ok(Some(add_directory(calls, inner)?)),
        None => Ok(None),
    }
}
