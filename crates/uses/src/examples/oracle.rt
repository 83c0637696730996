//! An oracle: a database that is filled with a crate in two files, `mod a; use a::S; use a::T;`,
//! and `pub struct S;` in `a.rs`.

ghost use Rattle.std.specs.Prelude.{◌≡◌, Some, IfOk, codes};
ghost use Rattle.def_database.specs.Database.{answers_of};

use crate::examples::collecting::tree_of_file;
use crate::examples::items::{
    WrittenItem, add_item, add_items, crate_data, import_of, module_of, plain, struct_of,
};
use hir_def::{Crate, Database, FileId, Interner, Seq};
use std::alloc::{AllocError, Global};

pub const CRATE: Crate = Crate(0);

pub const ROOT_FILE: FileId = FileId(0);

const FILE_OF_A: FileId = FileId(1);

/// The items of the root file. Their names are numbers of the session.
fn root_items(alloc: Global, session: &mut Interner) -> Result<Vec<WrittenItem>, AllocError> {
    let mut items = Vec::new(alloc);
    items.push(plain(module_of(session, "a")?))?;
    for name in &["S", "T"] {
        items.push(plain(import_of(alloc, session, &["a", name])?))?;
    }
    Ok(items)
}

/// A database of the crate.
pub fn database(alloc: Global, session: &mut Interner) -> Result<Database, AllocError>
    // The path leads from the root file to the other.
    ensures path { IfOk result (λ db. (answers_of db).resolve_path (record { 0 = 0 }) (codes "a.rs") ≡ Some (record { 0 = 1 })) }
{
    let mut db = Database::new(alloc);
    let items = root_items(alloc, session)?;
    add_items(alloc, &mut db, tree_of_file(ROOT_FILE), items)?;
    let item = struct_of(session, "S")?;
    add_item(alloc, &mut db, tree_of_file(FILE_OF_A), item)?;
    // Where `mod a;` leads, seen from the root file.
    db.add_path(ROOT_FILE, "a.rs", FILE_OF_A)?;
    let no_deps = Seq::from_vec(Vec::new(alloc));
    db.add_crate(CRATE, crate_data(ROOT_FILE, no_deps))?;
    Ok(db)
}
