//! Where tokens and items stand, as readers of files count.

use item_tree::{Crate, FileAstId, InFile};
use rust_codebase::{Codebase, ReadFile, item_at, outermost, token_of_item};
use rust_items::{Item, ItemKind, ItemList};
use rust_lexer::{Place, SourceId, Token};
use source_lines::{LineColumn, Lines};
use std::alloc::{AllocError, Global};
use std::cell::OnceCell;

/// A part of a file: its first byte, and the byte behind its last one.
#[derive(Clone, Copy, PartialEq, Eq, Debug)]
pub struct Spot {
    pub source: SourceId,
    pub start: usize,
    pub end: usize,
}

/// The files of a codebase by their texts, and the lines of these.
#[derive(Drop)]
pub struct Places<'a, C> {
    alloc: Global,
    pub codebase: &'a C,
    /// By the numbers of the sources.
    paths: Vec<&'a str>,
    /// The lines of each source, once a place of it is shown: of most files none is.
    lines: Vec<OnceCell<Lines>>,
    /// The number of each source in the order of paths.
    numbers: Vec<usize>,
    /// The crate of each source.
    crates: Vec<Crate>,
}

/// The last token of an import's path.
fn token_of_import(list: &ItemList, item: &Item, index: u32) -> Option<Token> {
    let ItemKind::Use { imports } = item.kind else {
        return None;
    };
    let at = imports.from.saturating_add(index);
    let import = list.imports.get(at as usize)?;
    let segment = list.path_segments.get(import.path? as usize)?;
    segment.name
}

/// Adds an entry at a place of a list, and lets those before it that are missing be `missing`.
fn put_at<T: Copy>(list: &mut Vec<T>, at: usize, entry: T, missing: T) -> Result<(), AllocError> {
    for _ in list.len()..at.saturating_add(1) {
        list.push(missing)?;
    }
    if let Some(place) = list.get_mut(at) {
        *place = entry;
    }
    Ok(())
}

/// The place of each text in the order of texts.
fn ranks(alloc: Global, texts: &[&str]) -> Result<Vec<usize>, AllocError> {
    let mut order: Vec<(&str, usize)> = Vec::new(alloc);
    for (number, text) in texts.iter().enumerate() {
        order.push((*text, number))?;
    }
    order.sort_unstable();
    let mut ranks = Vec::new(alloc);
    for (rank, (_, number)) in order.iter().enumerate() {
        put_at(&mut ranks, *number, rank, 0)?;
    }
    Ok(ranks)
}

impl<'a, C: Codebase> Places<'a, C> {
    /// The places of what was read.
    pub fn new(alloc: Global, codebase: &'a C) -> Result<Places<'a, C>, AllocError> {
        let mut paths: Vec<&'a str> = Vec::new(alloc);
        let mut crates = Vec::new(alloc);
        for file in codebase.files().values() {
            let number = file.source.0 as usize;
            put_at(&mut paths, number, file.path.as_str(), "?")?;
            put_at(&mut crates, number, file.krate, file.krate)?;
        }
        let mut lines = Vec::new(alloc);
        for _ in 0..paths.len() {
            lines.push(OnceCell::new())?;
        }
        let numbers = ranks(alloc, paths.as_slice())?;
        Ok(Places {
            alloc,
            codebase,
            paths,
            lines,
            numbers,
            crates,
        })
    }

    /// The number of a file in the order of paths.
    pub fn file_number(&self, source: SourceId) -> usize {
        self.numbers.get(source.0 as usize).copied().unwrap_or(0)
    }

    /// The crate of a file.
    pub fn crate_of(&self, source: SourceId) -> Option<Crate> {
        self.crates.get(source.0 as usize).copied()
    }

    /// The path of a file.
    pub fn path(&self, source: SourceId) -> &'a str {
        self.paths.get(source.0 as usize).copied().unwrap_or("?")
    }

    /// The lines of a file.
    fn lines(&self, source: SourceId) -> Result<Option<&Lines>, AllocError> {
        let Some(lines) = self.lines.get(source.0 as usize) else {
            return Ok(None);
        };
        let text = self.codebase.source_text(source);
        let lines = lines.get_or_try_init(|| Lines::new(self.alloc, text))?;
        Ok(Some(lines))
    }

    /// The line and the column in which a part of a file begins, as its readers count.
    pub fn line_column(&self, spot: Spot) -> Result<LineColumn, AllocError> {
        let text = self.codebase.source_text(spot.source);
        match self.lines(spot.source)? {
            Some(lines) => Ok(lines.place(text, spot.start)),
            None => Ok(LineColumn { line: 1, column: 1 }),
        }
    }

    /// Where a token stands.
    pub fn spot_of_token(&self, token: Token) -> Spot {
        Spot {
            source: token.source,
            start: token.start as usize,
            end: token.end as usize,
        }
    }

    /// The character at a place that was counted by lines.
    pub fn spot_of_place(&self, place: Place) -> Result<Spot, AllocError> {
        let Place {
            source,
            line,
            column,
        } = place;
        let text = self.codebase.source_text(source);
        let start = match self.lines(source)? {
            Some(lines) => lines.byte(text, LineColumn { line, column }),
            None => 0,
        };
        Ok(Spot {
            source,
            start,
            end: start.saturating_add(1),
        })
    }

    /// What was read of the file in which an item stands, and the item.
    pub fn item(&self, position: InFile<FileAstId>) -> Option<(&'a ReadFile, &'a Item)> {
        item_at(self.codebase, position)
    }

    /// Where an item stands: its name or its beginning, or the call that it was expanded from.
    pub fn spot_of_item(&self, position: InFile<FileAstId>) -> Option<Spot> {
        let (read, item) = self.item(outermost(self.codebase, position))?;
        Some(self.spot_of_token(token_of_item(read, item)?))
    }

    /// Where an import of a `use` item stands: the last name of its path.
    pub fn spot_of_import(&self, position: InFile<FileAstId>, index: u32) -> Option<Spot> {
        let home = outermost(self.codebase, position);
        if home == position {
            let (read, item) = self.item(position)?;
            if let Some(token) = token_of_import(&read.list, item, index) {
                return Some(self.spot_of_token(token));
            }
        }
        self.spot_of_item(position)
    }

    /// The name of an item, without an `r#`.
    pub fn name_of_item(&self, position: InFile<FileAstId>) -> Option<&'a str> {
        let (_, item) = self.item(position)?;
        Some(self.codebase.token_text(item.name?))
    }
}
