//! The items of a trait, one of which calls a macro: `macro_rules! m { .. }` and
//! `pub trait T { fn a(); m!(); type c; }`, where the call gives `fn b();`.

use crate::examples::collecting::collect_first;
use crate::examples::items::{path_of, plain, trait_of};
use crate::examples::macros::{answer_of, macro_rules_of};
use crate::examples::one_file::{CALL, CRATE, FILE, database, position};
use hir_def::{
    AssocItem, AssocItemKind, AssocItemsOwner, AssocList, Def, Interner, Name, Seq, SourceDatabase,
    SyntaxContext, TraitId, TraitItems,
};
use std::alloc::{AllocError, Global};

/// The number of the call in the order of the text: the items of a trait stand behind it.
const PLACE: usize = 3;

/// Items of a trait or of an expansion, without attributes, whose numbers go on from this one.
fn list_of(
    alloc: Global,
    first: usize,
    kinds: Vec<AssocItemKind>,
) -> Result<AssocList, AllocError> {
    let mut items = Vec::new(alloc);
    for kind in kinds {
        items.push(AssocItem {
            ast_id: position(first.saturating_add(items.len())).value,
            attrs: None,
            kind,
        })?;
    }
    Ok(AssocList {
        is_alias: false,
        items: Seq::from_vec(items),
    })
}

/// `fn a(); m!(); type c;`
fn written(alloc: Global, session: &mut Interner) -> Result<AssocList, AllocError> {
    let function = AssocItemKind::Fn(Some(session.intern_name("a")?));
    let call = AssocItemKind::MacroCall {
        path: Some(path_of(alloc, session, &["m"])?),
        ctxt: SyntaxContext(0),
    };
    let type_alias = AssocItemKind::TypeAlias(Some(session.intern_name("c")?));
    list_of(alloc, 2, vec![in alloc; function, call, type_alias]?)
}

/// The trait that a name means in the root of the finished crate.
fn trait_named<D: SourceDatabase>(db: &D, name: Name) -> Option<TraitId> {
    match db.crate_def_map(CRATE)?.scope(0)?.get(name).types?.def {
        Def::Trait(id) => Some(id),
        _ => None,
    }
}

/// Collects the crate and then the items of its trait, which are asked for by the trait's number.
/// `None` where the crate has no such trait, or something is reported of its items.
pub fn collect(alloc: Global, session: &mut Interner) -> Result<Option<TraitItems>, AllocError> {
    let rules = plain(macro_rules_of(session, "m")?);
    let items = vec![in alloc; rules, plain(trait_of(session, "T")?)]?;
    let mut db = database(alloc, items)?;
    collect_first(alloc, &mut db, session, CRATE, FILE)?;
    let Some(id) = trait_named(&db, session.intern_name("T")?) else {
        return Ok(None);
    };
    db.add_assoc_items(AssocItemsOwner::Trait(id), written(alloc, session)?)?;
    db.add_call_at(position(PLACE), answer_of(alloc, CALL))?;
    let function = AssocItemKind::Fn(Some(session.intern_name("b")?));
    let given = list_of(alloc, 0, vec![in alloc; function]?)?;
    db.add_assoc_items(AssocItemsOwner::Expansion(CALL), given)?;
    let (items, reported) = TraitItems::query_with_diagnostics(alloc, &db, session, id)?;
    Ok(reported.is_empty().then_some(items))
}
