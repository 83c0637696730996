//! What items are.

use crate::context::Lowering;
use crate::fault::LowerFault;
use def_interner::Interner;
use item_tree::{
    ExpandTo, ModContents, ModItemKind, ModPath, Name, RawVisibility, Seq, SyntaxContext,
};
use rust_items::{Constructor, Item, ItemKind, Span};
use rust_lexer::Token;
use std::alloc::AllocError;

impl<'a> Lowering<'a> {
    /// The path of a macro call, if it is one. What is wrong with it is told.
    pub(crate) fn call_path(
        &mut self,
        session: &mut Interner,
        path: Span,
    ) -> Result<Option<ModPath>, AllocError> {
        match self.path(session, path)? {
            Some(read) => Ok(Some(self.rooted(path, read))),
            None => {
                self.tell(LowerFault::BadPath, self.token(path.from))?;
                Ok(None)
            }
        }
    }

    /// A macro call.
    fn call(
        &mut self,
        session: &mut Interner,
        path: Span,
    ) -> Result<Option<ModItemKind>, AllocError> {
        match self.call_path(session, path)? {
            Some(path) => Ok(Some(ModItemKind::MacroCall {
                path,
                expand_to: ExpandTo::Items,
                ctxt: SyntaxContext(0),
            })),
            None => Ok(None),
        }
    }

    /// A `use` with its imports.
    fn use_item(
        &mut self,
        session: &mut Interner,
        visibility: RawVisibility,
        imports: Span,
    ) -> Result<ModItemKind, AllocError> {
        let imports = self.imports(session, imports)?;
        Ok(ModItemKind::Use {
            visibility,
            imports,
        })
    }

    /// An extern crate, which may be `self`.
    fn extern_crate(
        &mut self,
        session: &mut Interner,
        visibility: RawVisibility,
        name: Option<Token>,
        alias: Option<Token>,
    ) -> Result<ModItemKind, AllocError> {
        let name = self.name_or_missing(session, name)?;
        let alias = self.alias(session, alias)?;
        Ok(ModItemKind::ExternCrate {
            name,
            visibility,
            alias,
        })
    }

    /// A constant, which may have no name.
    fn const_item(
        &mut self,
        session: &mut Interner,
        visibility: RawVisibility,
        name: Option<Token>,
    ) -> Result<ModItemKind, AllocError> {
        let name = self.optional_name(session, name)?;
        Ok(ModItemKind::Const { name, visibility })
    }

    /// A struct with its constructor.
    fn struct_item(
        &mut self,
        session: &mut Interner,
        name: Name,
        visibility: RawVisibility,
        constructor: Constructor,
    ) -> Result<ModItemKind, AllocError> {
        let ctor = self.constructor(session, constructor, &visibility)?;
        Ok(ModItemKind::Struct {
            name,
            visibility,
            ctor,
        })
    }

    /// A module, which has no items in it yet.
    fn module(&self, name: Name, visibility: RawVisibility, is_inline: bool) -> ModItemKind {
        let contents = if is_inline {
            ModContents::Inline(Seq::from_vec(Vec::new(self.alloc)))
        } else {
            ModContents::Outline
        };
        ModItemKind::Mod {
            name,
            visibility,
            contents,
        }
    }

    /// An item that has a name.
    fn named(
        &mut self,
        session: &mut Interner,
        item: &Item,
        visibility: RawVisibility,
    ) -> Result<Option<ModItemKind>, AllocError> {
        let name = self.name_or_missing(session, item.name)?;
        let kind = match item.kind {
            ItemKind::Function { .. } => ModItemKind::Function { name, visibility },
            ItemKind::Struct { constructor } => {
                self.struct_item(session, name, visibility, constructor)?
            }
            ItemKind::Union => ModItemKind::Union { name, visibility },
            ItemKind::Enum { .. } => ModItemKind::Enum { name, visibility },
            ItemKind::Static => ModItemKind::Static { name, visibility },
            ItemKind::Trait => ModItemKind::Trait { name, visibility },
            ItemKind::TypeAlias => ModItemKind::TypeAlias { name, visibility },
            ItemKind::Module { is_inline } => self.module(name, visibility, is_inline),
            ItemKind::MacroRules { .. } => ModItemKind::MacroRules { name },
            ItemKind::MacroTwo { .. } => ModItemKind::Macro2 { name, visibility },
            _ => return Ok(None),
        };
        Ok(Some(kind))
    }

    /// What an item is. None for a macro call whose path is wrong.
    pub(crate) fn kind(
        &mut self,
        session: &mut Interner,
        item: &Item,
    ) -> Result<Option<ModItemKind>, AllocError> {
        let visibility = self.visibility(session, item.visibility)?;
        match item.kind {
            ItemKind::Use { imports } => { Ok(Some(self.use_item(session, visibility, imports)?)) }
            ItemKind::ExternCrate { alias } => {
                let kind = self.extern_crate(session, visibility, item.name, alias)?;
                Ok(Some(kind))
            }
            ItemKind::ExternBlock => Ok(Some(ModItemKind::ExternBlock {
                children: Seq::from_vec(Vec::new(self.alloc)),
            })),
            ItemKind::Const => Ok(Some(self.const_item(session, visibility, item.name)?)),
            ItemKind::Impl { is_of_trait } => Ok(Some(ModItemKind::Impl {
                is_trait_impl: is_of_trait,
            })),
            ItemKind::MacroCall { path, .. } => self.call(session, path),
            _ => self.named(session, item, visibility),
        }
    }
}
