//! What stands in traits and impls.

use crate::context::Lowering;
use def_interner::Interner;
use def_oracle::AssocItemKind;
use item_tree::{Name, SyntaxContext};
use rust_items::{Item, ItemKind};
use rust_lexer::Token;
use std::alloc::AllocError;

impl<'a> Lowering<'a> {
    /// A name, if there is one.
    pub(crate) fn optional_name(
        &self,
        session: &mut Interner,
        name: Option<Token>,
    ) -> Result<Option<Name>, AllocError> {
        match name {
            Some(name) => Ok(Some(self.name(session, name)?)),
            None => Ok(None),
        }
    }

    /// What an item of a trait or an impl is.
    pub(crate) fn associated(
        &mut self,
        session: &mut Interner,
        item: &Item,
    ) -> Result<AssocItemKind, AllocError> {
        match item.kind {
            ItemKind::Function { .. } => {
                let name = self.optional_name(session, item.name)?;
                Ok(AssocItemKind::Fn(name))
            }
            ItemKind::TypeAlias => {
                let name = self.optional_name(session, item.name)?;
                Ok(AssocItemKind::TypeAlias(name))
            }
            ItemKind::Const => {
                let name = self.optional_name(session, item.name)?;
                Ok(AssocItemKind::Const(name))
            }
            ItemKind::MacroCall { path, .. } => Ok(AssocItemKind::MacroCall {
                path: self.call_path(session, path)?,
                ctxt: SyntaxContext(0),
            }),
            _ => Ok(AssocItemKind::Other),
        }
    }
}
