//! Imports as they are written.

use crate::names::Names;
use crate::places::Spot;
use def_bindings::ImportOrExternCrate;
use def_ids::UseId;
use item_tree::{FileAstId, InFile};
use rust_codebase::Codebase;
use rust_items::{Import, ImportKind, ItemKind, ItemList};
use rust_lexer::Token;
use std::alloc::{AllocError, Global};

/// What brought a binding, and where that stands.
#[derive(Drop)]
pub struct Brought {
    /// As `use crate::a::*`.
    pub text: String,
    pub spot: Option<Spot>,
}

/// The segments of a path. No token is the `::` that a path begins with.
fn segments_of(
    alloc: Global,
    list: &ItemList,
    last: Option<u32>,
) -> Result<Vec<Option<Token>>, AllocError> {
    let mut segments = Vec::new(alloc);
    let mut next = last;
    for _ in 0..list.path_segments.len() {
        let Some(number) = next else {
            break;
        };
        let Some(segment) = list.path_segments.get(number as usize) else {
            break;
        };
        segments.push(segment.name)?;
        next = segment.before;
    }
    segments.reverse();
    Ok(segments)
}

impl<'a, C: Codebase> Names<'a, C> {
    /// The name of a token, without an `r#`.
    pub fn token_text(&self, token: Token) -> &'a str {
        self.codebase().token_text(token)
    }

    /// An import of a `use` item, and the list that it is of.
    pub fn import(
        &self,
        position: InFile<FileAstId>,
        index: u32,
    ) -> Option<(&'a ItemList, Import)> {
        let (read, item) = self.places.item(position)?;
        let ItemKind::Use { imports } = item.kind else {
            return None;
        };
        let at = imports.from.saturating_add(index);
        let import = read.list.imports.get(at as usize)?;
        Some((&read.list, *import))
    }

    /// Whether an import of a `use` item is a glob.
    pub fn is_glob(&self, position: InFile<FileAstId>, index: u32) -> bool {
        match self.import(position, index) {
            Some((_, import)) => import.kind == ImportKind::Glob,
            None => false,
        }
    }

    /// Adds the path of an import.
    fn add_import_path(
        &self,
        text: &mut String,
        list: &ItemList,
        import: &Import,
    ) -> Result<(), AllocError> {
        let segments = segments_of(self.alloc, list, import.path)?;
        let mut between = "";
        for segment in segments.iter() {
            text.push_str(between)?;
            if let Some(name) = segment {
                text.push_str(self.token_text(*name))?;
            }
            between = "::";
        }
        Ok(())
    }

    /// The text of an import, as `use a::b as c` or `use a::*`.
    pub fn import_text(
        &self,
        position: InFile<FileAstId>,
        index: u32,
    ) -> Result<String, AllocError> {
        let mut text = String::from_str(self.alloc, "use ")?;
        let Some((list, import)) = self.import(position, index) else {
            text.push_str("?")?;
            return Ok(text);
        };
        self.add_import_path(&mut text, list, &import)?;
        match import.kind {
            ImportKind::Plain => {}
            ImportKind::Glob => text.push_str("::*")?,
            ImportKind::TypeOnly => text.push_str("::{self}")?,
        }
        if let Some(alias) = import.alias {
            text.push_str(" as ")?;
            text.push_str(self.token_text(alias))?;
        }
        Ok(text)
    }

    /// The import of a `use` item by its id, and where it stands.
    fn brought_by_use(&self, id: UseId, index: u32) -> Result<Option<Brought>, AllocError> {
        let Some(position) = self.codebase().use_position(id) else {
            return Ok(None);
        };
        Ok(Some(Brought {
            text: self.import_text(position, index)?,
            spot: self.places.spot_of_import(position, index),
        }))
    }

    /// The extern crate at a position, and where it stands.
    fn brought_by_crate(&self, position: InFile<FileAstId>) -> Result<Brought, AllocError> {
        let mut text = String::from_str(self.alloc, "extern crate ")?;
        text.push_str(self.places.name_of_item(position).unwrap_or("?"))?;
        Ok(Brought {
            text,
            spot: self.places.spot_of_item(position),
        })
    }

    /// What brought a binding. None for a declaration.
    pub fn brought(
        &self,
        origin: Option<ImportOrExternCrate>,
    ) -> Result<Option<Brought>, AllocError> {
        match origin {
            None => Ok(None),
            Some(ImportOrExternCrate::Import(id)) => self.brought_by_use(id.use_id, id.idx),
            Some(ImportOrExternCrate::Glob(id)) => self.brought_by_use(id.use_id, id.idx),
            Some(ImportOrExternCrate::ExternCrate(id)) => {
                match self.codebase().extern_crate_position(id) {
                    Some(position) => Ok(Some(self.brought_by_crate(position)?)),
                    None => Ok(None),
                }
            }
        }
    }
}
