//! A macro that an item calls: `macro_rules! make { .. } make!();`, which gives `pub struct S;`.

use crate::examples::collecting::collect_crate;
use crate::examples::items::{WrittenItem, plain, struct_of};
use crate::examples::macros::{add_expansion, answer_of, call_of, macro_rules_of};
use crate::examples::one_file::{CALL, CRATE, FILE, database, position};
use hir_def::{Collected, Interner};
use std::alloc::{AllocError, Global};

/// The number of the call in the order of the text.
pub const PLACE: usize = 1;

/// The items of the file.
fn items(alloc: Global, session: &mut Interner) -> Result<Vec<WrittenItem>, AllocError> {
    let rules = plain(macro_rules_of(session, "make")?);
    let call = plain(call_of(alloc, session, "make")?);
    Ok(vec![in alloc; rules, call]?)
}

/// Collects the crate. What the call gives is known by where it stands, before any run says which
/// number its macro gets. The call is expanded as soon as it is reached.
pub fn collect(alloc: Global, session: &mut Interner) -> Result<Collected, AllocError> {
    let mut db = database(alloc, items(alloc, session)?)?;
    db.add_call_at(position(PLACE), answer_of(alloc, CALL))?;
    add_expansion(alloc, &mut db, CALL, struct_of(session, "S")?)?;
    collect_crate(alloc, &db, session, CRATE, FILE)
}
