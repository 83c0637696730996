//! Two crates: `pub struct S;`, and `use d::S;` of one that knows the first as `d`.

use crate::examples::collecting::{collect_crate, collect_first, tree_of_file};
use crate::examples::items::{add_item, crate_data, import_of, struct_of};
use hir_def::{Collected, Crate, Database, Dependency, FileId, Interner, Seq};
use std::alloc::{AllocError, Global};

const DEPENDENCY: Crate = Crate(0);

const USER: Crate = Crate(1);

const DEPENDENCY_FILE: FileId = FileId(0);

const USER_FILE: FileId = FileId(1);

/// What the user depends on: the first crate, whose name its paths may begin with.
fn dependencies(alloc: Global, session: &mut Interner) -> Result<Seq<Dependency>, AllocError> {
    let dependency = Dependency {
        name: session.intern_name("d")?,
        krate: DEPENDENCY,
        prelude: true,
        sysroot: false,
    };
    Ok(Seq::from_vec(vec![in alloc; dependency]?))
}

/// A database of both crates, with no map yet.
fn database(alloc: Global, session: &mut Interner) -> Result<Database, AllocError> {
    let mut db = Database::new(alloc);
    let item = struct_of(session, "S")?;
    add_item(alloc, &mut db, tree_of_file(DEPENDENCY_FILE), item)?;
    let no_deps = Seq::from_vec(Vec::new(alloc));
    db.add_crate(DEPENDENCY, crate_data(DEPENDENCY_FILE, no_deps))?;
    let item = import_of(alloc, session, &["d", "S"])?;
    add_item(alloc, &mut db, tree_of_file(USER_FILE), item)?;
    let deps = dependencies(alloc, session)?;
    db.add_crate(USER, crate_data(USER_FILE, deps))?;
    Ok(db)
}

/// Collects the dependency and then its user, in one session.
pub fn collect(alloc: Global, session: &mut Interner) -> Result<Collected, AllocError> {
    let mut db = database(alloc, session)?;
    collect_first(alloc, &mut db, session, DEPENDENCY, DEPENDENCY_FILE)?;
    collect_crate(alloc, &db, session, USER, USER_FILE)
}
