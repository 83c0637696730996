//! A derive, whose expansion stands beside its item: `#[derive(Make)] pub struct T;`, which gives
//! `pub struct S;`. `derive` itself is a builtin macro, which a crate declares as any other:
//! `#[rustc_builtin_macro] pub macro derive {} pub macro Make { .. }`.

use crate::examples::collecting::collect_crate;
use crate::examples::items::{WrittenItem, attr_of, path_of, plain, struct_of};
use crate::examples::macros::{add_expansion, macro_of};
use crate::examples::one_file::{CALL, CRATE, FILE, database, position};
use hir_def::{
    Attr, AttrId, BuiltinAttr, Collected, DerivePlace, Interner, MacroCallStyles, Seq,
    SyntaxContext,
};
use std::alloc::{AllocError, Global};

/// Where the derive stands: in the first attribute of the third item of the file, at the first place of
/// its list.
pub fn place() -> DerivePlace {
    DerivePlace {
        position: position(2),
        attr_id: AttrId(0),
        pos: 0,
    }
}

/// `#[derive(Make)]`. Which paths are listed is handed in beside the tokens, and read alone.
fn derive_of(alloc: Global, session: &mut Interner) -> Result<Attr, AllocError> {
    let path = path_of(alloc, session, &["Make"])?;
    let mut attr = attr_of(alloc, session, "derive")?;
    attr.paths = Some(Seq::from_vec(vec![in alloc; (path, SyntaxContext(0))]?));
    Ok(attr)
}

/// The items of the file.
fn items(alloc: Global, session: &mut Interner) -> Result<Vec<WrittenItem>, AllocError> {
    let builtin = WrittenItem {
        attr: Some(attr_of(alloc, session, "rustc_builtin_macro")?),
        kind: macro_of(session, "derive")?,
    };
    let definition = plain(macro_of(session, "Make")?);
    let item = WrittenItem {
        attr: Some(derive_of(alloc, session)?),
        kind: struct_of(session, "T")?,
    };
    Ok(vec![in alloc; builtin, definition, item]?)
}

/// Collects the crate. The database says which builtin `derive` is, that derives call the other
/// macro, and what the derive gives. The item stays, and its derive's expansion is beside it.
pub fn collect(alloc: Global, session: &mut Interner) -> Result<Collected, AllocError> {
    let mut db = database(alloc, items(alloc, session)?)?;
    db.add_builtin_attr(session.intern_name("derive")?, BuiltinAttr::Derive)?;
    db.add_styles(position(1), MacroCallStyles::DERIVE)?;
    db.add_derive_call_at(place(), CALL)?;
    add_expansion(alloc, &mut db, CALL, struct_of(session, "S")?)?;
    collect_crate(alloc, &db, session, CRATE, FILE)
}
