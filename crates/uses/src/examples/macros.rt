//! Macros, and what they give: the items that define and call them, what calls answer, and the
//! trees of expansions.

use crate::examples::items::{add_item, path_of};
use hir_def::{
    CallAnswer, Database, ExpandTo, HirFileId, Interner, MacroCallId, ModItemKind, RawVisibility,
    Seq, SyntaxContext, TreeId,
};
use std::alloc::{AllocError, Global};

/// `macro_rules! m { .. }`. Its rules are the database's: here the item is its name alone.
pub fn macro_rules_of(session: &mut Interner, name: &str) -> Result<ModItemKind, AllocError> {
    Ok(ModItemKind::MacroRules {
        name: session.intern_name(name)?,
    })
}

/// `pub macro m { .. }`
pub fn macro_of(session: &mut Interner, name: &str) -> Result<ModItemKind, AllocError> {
    Ok(ModItemKind::Macro2 {
        name: session.intern_name(name)?,
        visibility: RawVisibility::Public,
    })
}

/// `m!(..);`
pub fn call_of(
    alloc: Global,
    session: &mut Interner,
    name: &str,
) -> Result<ModItemKind, AllocError> {
    Ok(ModItemKind::MacroCall {
        path: path_of(alloc, session, &[name])?,
        expand_to: ExpandTo::Items,
        ctxt: SyntaxContext(0),
    })
}

/// What a call answers that has an expansion, no error, and no calls among its arguments.
pub fn answer_of(alloc: Global, call: MacroCallId) -> CallAnswer {
    CallAnswer {
        value: Some(call),
        err: None,
        inner: Seq::from_vec(Vec::new(alloc)),
    }
}

/// Writes down what a call gives: an expansion that holds this item alone.
pub fn add_expansion(
    alloc: Global,
    db: &mut Database,
    call: MacroCallId,
    kind: ModItemKind,
) -> Result<(), AllocError> {
    let expansion = TreeId {
        file: HirFileId::Macro(call),
        block: None,
    };
    add_item(alloc, db, expansion, kind)
}
