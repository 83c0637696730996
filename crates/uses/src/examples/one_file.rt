//! A crate of one file, as the examples of blocks, macros and traits have it.

use crate::examples::collecting::tree_of_file;
use crate::examples::items::{WrittenItem, add_items, crate_data};
use hir_def::{Crate, Database, FileAstId, FileId, HirFileId, InFile, MacroCallId, Seq};
use std::alloc::{AllocError, Global};

pub const CRATE: Crate = Crate(0);

pub const FILE: FileId = FileId(0);

/// The one macro call of the crate, by whose number its expansion is known.
pub const CALL: MacroCallId = MacroCallId(0);

/// Where an item of the file stands, by its number in the order of the text.
pub fn position(number: usize) -> InFile<FileAstId> {
    InFile {
        file: HirFileId::File(FILE),
        value: FileAstId(number),
    }
}

/// A database of the crate, whose file holds these items.
pub fn database(alloc: Global, items: Vec<WrittenItem>) -> Result<Database, AllocError> {
    let mut db = Database::new(alloc);
    add_items(alloc, &mut db, tree_of_file(FILE), items)?;
    let no_deps = Seq::from_vec(Vec::new(alloc));
    db.add_crate(CRATE, crate_data(FILE, no_deps))?;
    Ok(db)
}
