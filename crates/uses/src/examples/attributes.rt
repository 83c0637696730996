//! An attribute macro, whose expansion stands in its item's place: `pub macro m { .. }` and
//! `#[m] pub struct T;`, which gives `pub struct S;`.

use crate::examples::collecting::collect_crate;
use crate::examples::items::{WrittenItem, attr_of, plain, struct_of};
use crate::examples::macros::{add_expansion, macro_of};
use crate::examples::one_file::{CALL, CRATE, FILE, database, position};
use hir_def::{Collected, Interner, MacroCallStyles};
use std::alloc::{AllocError, Global};

/// The number of the item with the attribute in the order of the text.
pub const PLACE: usize = 1;

/// The items of the file.
fn items(alloc: Global, session: &mut Interner) -> Result<Vec<WrittenItem>, AllocError> {
    let definition = plain(macro_of(session, "m")?);
    let item = WrittenItem {
        attr: Some(attr_of(alloc, session, "m")?),
        kind: struct_of(session, "T")?,
    };
    Ok(vec![in alloc; definition, item]?)
}

/// Collects the crate. The database says of the macro that attributes call it, and of the item what
/// its attribute gives. The item waits until that macro is found, and is then not declared.
pub fn collect(alloc: Global, session: &mut Interner) -> Result<Collected, AllocError> {
    let mut db = database(alloc, items(alloc, session)?)?;
    db.add_styles(position(0), MacroCallStyles::ATTR)?;
    db.add_attr_call_at(position(PLACE), CALL)?;
    add_expansion(alloc, &mut db, CALL, struct_of(session, "S")?)?;
    collect_crate(alloc, &db, session, CRATE, FILE)
}
