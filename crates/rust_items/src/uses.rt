//! Imports, their trees made flat.

use crate::fault::{ItemFault, Stop};
use crate::heads::{Head, closed};
use crate::item::{Import, ImportKind, ItemKind, PathSegment};
use crate::reader::{Reader, kept, span};
use crate::words::Word;
use rust_lexer::{Token, TokenKind};

/// `{..}` of a tree whose imports are being read.
#[derive(Clone, Copy)]
struct OpenTree {
    prefix: Option<u32>,
    outer_end: usize,
}

/// What a path of a tree ends with.
enum PathEnd {
    /// Its import, which has been taken.
    Import,
    /// A brace that opens behind this path.
    Tree(Option<u32>),
}

impl<'a> Reader<'a> {
    /// Adds a segment behind another.
    fn segment(&mut self, before: Option<u32>, name: Option<Token>) -> Result<Option<u32>, Stop> {
        let number = kept(self.list.path_segments.len());
        self.list.path_segments.push(PathSegment { before, name })?;
        Ok(Some(number))
    }

    /// Adds an import.
    fn import(
        &mut self,
        path: Option<u32>,
        kind: ImportKind,
        alias: Option<Token>,
    ) -> Result<PathEnd, Stop> {
        self.list.imports.push(Import { path, kind, alias })?;
        Ok(PathEnd::Import)
    }

    /// Takes the name of a segment.
    fn segment_name(&mut self) -> Result<Token, Stop> {
        let is_segment = self.word(0).is_segment();
        if self.names(0) || is_segment || self.kind(0) == Some(TokenKind::DollarCrate) {
            return self.token(ItemFault::WantedImport);
        }
        self.fail(ItemFault::WantedImport)
    }

    /// Takes the `::` that a path begins with, if it stands here.
    fn leading_mark(&mut self, prefix: Option<u32>) -> Result<Option<u32>, Stop> {
        if !self.is_path_mark(0) {
            return Ok(prefix);
        }
        self.skip(2);
        match prefix {
            Some(_) => Ok(prefix),
            None => self.segment(None, None),
        }
    }

    /// Takes a path with its import, or up to the brace that opens behind it.
    fn use_path(&mut self, prefix: Option<u32>) -> Result<PathEnd, Stop> {
        let mut path = self.leading_mark(prefix)?;
        for _ in self.at..self.end {
            if self.eat(b'*') {
                return self.import(path, ImportKind::Glob, None);
            }
            if self.is_braced() {
                return Ok(PathEnd::Tree(path));
            }
            if self.word(0) == Word::SelfPath && path.is_some() && !self.is_path_mark(1) {
                self.skip(1);
                let alias = self.alias()?;
                return self.import(path, ImportKind::TypeOnly, alias);
            }
            let name = self.segment_name()?;
            path = self.segment(path, Some(name))?;
            if !self.is_path_mark(0) {
                let alias = self.alias()?;
                return self.import(path, ImportKind::Plain, alias);
            }
            self.skip(2);
        }
        self.fail(ItemFault::WantedImport)
    }

    /// Goes over the `,` behind a tree within another.
    fn tree_comma(&mut self) -> Result<(), Stop> {
        if self.at >= self.end || self.eat(b',') {
            return Ok(());
        }
        self.fail(ItemFault::WantedComma)
    }

    /// Closes the trees that end here, and answers what the paths that follow begin with.
    fn close_trees(
        &mut self,
        open: &mut Vec<OpenTree>,
        prefix: Option<u32>,
    ) -> Result<Option<u32>, Stop> {
        let mut prefix = prefix;
        for _ in 0..=open.len() {
            if self.at < self.end {
                break;
            }
            let Some(done) = open.pop() else {
                return self.fail(ItemFault::WantedSemicolon);
            };
            self.set_place(self.end.saturating_add(1), done.outer_end);
            prefix = done.prefix;
            if !open.is_empty() {
                self.tree_comma()?;
            }
        }
        Ok(prefix)
    }

    /// Takes what follows `use`.
    pub(crate) fn use_head(&mut self) -> Result<Head, Stop> {
        let from = self.list.imports.len();
        let mut open: Vec<OpenTree> = Vec::new(self.alloc);
        let mut prefix = None;
        // Each turn goes on by a token at least.
        for _ in 0..=self.tokens.len() {
            match self.use_path(prefix)? {
                PathEnd::Tree(path) => {
                    open.push(OpenTree {
                        prefix,
                        outer_end: self.end,
                    })?;
                    self.set_place(self.at.saturating_add(1), self.partner());
                    prefix = path;
                }
                PathEnd::Import if open.is_empty() => {}
                PathEnd::Import => self.tree_comma()?,
            }
            prefix = self.close_trees(&mut open, prefix)?;
            if open.is_empty() {
                break;
            }
        }
        self.semicolon_here()?;
        let imports = span(from, self.list.imports.len());
        Ok(closed(ItemKind::Use { imports }, None))
    }
}
