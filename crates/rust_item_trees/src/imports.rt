//! The imports of a `use`.

use crate::context::Lowering;
use crate::fault::LowerFault;
use crate::paths::PathSoFar;
use def_interner::Interner;
use item_tree::{ImportAlias, ImportKind, ModPath, Seq, UseImport};
use rust_items::{self as read, PathSegment, Span};
use rust_lexer::Token;
use std::alloc::AllocError;

/// What an import takes.
fn import_kind(kind: read::ImportKind) -> ImportKind {
    match kind {
        read::ImportKind::Plain => ImportKind::Plain,
        read::ImportKind::Glob => ImportKind::Glob,
        read::ImportKind::TypeOnly => ImportKind::TypeOnly,
    }
}

impl<'a> Lowering<'a> {
    /// The name behind `as`; `_` is none.
    pub(crate) fn alias(
        &self,
        session: &mut Interner,
        alias: Option<Token>,
    ) -> Result<Option<ImportAlias>, AllocError> {
        let Some(alias) = alias else {
            return Ok(None);
        };
        if self.context.sources.text_of(alias) == "_" {
            return Ok(Some(ImportAlias::Underscore));
        }
        Ok(Some(ImportAlias::Alias(self.name(session, alias)?)))
    }

    /// The segment of a number in the table of those of imports.
    fn listed_segment(&self, number: Option<u32>) -> Option<PathSegment> {
        let number = number? as usize;
        self.context.list.path_segments.get(number).copied()
    }

    /// The segments of a path, the last one first. None where the imports' paths are too long
    /// together: paths of nested braces share what they begin with, and an import has it whole.
    fn segments_back(&mut self, last: Option<u32>) -> Result<Option<Vec<PathSegment>>, AllocError> {
        let mut segments = Vec::new(self.alloc);
        let mut next = self.listed_segment(last);
        for _ in 0..self.context.list.path_segments.len() {
            let Some(segment) = next else {
                break;
            };
            if segments.len() >= self.segments_left {
                self.segments_left = 0;
                return Ok(None);
            }
            segments.push(segment)?;
            next = self.listed_segment(segment.before);
        }
        self.segments_left = self.segments_left.saturating_sub(segments.len());
        Ok(Some(segments))
    }

    /// The path of segments, the last of which comes first.
    fn path_of_segments(
        &self,
        session: &mut Interner,
        segments: &[PathSegment],
    ) -> Result<Option<ModPath>, AllocError> {
        let mut path = PathSoFar::new(self.alloc);
        for (passed, segment) in segments.iter().rev().enumerate() {
            if passed > 0 {
                path.add_colon();
                path.add_colon();
            }
            // A first segment without a name is the colons that the path begins with.
            if let Some(name) = segment.name {
                let segment = self.segment(session, name)?;
                path.add(segment)?;
            }
        }
        Ok(path.finish())
    }

    /// The path of an import, if it is one. What is wrong with it is told.
    fn import_path(
        &mut self,
        session: &mut Interner,
        last: Option<u32>,
    ) -> Result<Option<ModPath>, AllocError> {
        let Some(segment) = self.listed_segment(last) else {
            // `use *` takes from nothing.
            return Ok(None);
        };
        let token = segment.name;
        let Some(segments) = self.segments_back(last)? else {
            self.tell(LowerFault::LongPaths, token)?;
            return Ok(None);
        };
        let path = self.path_of_segments(session, segments.as_slice())?;
        if path.is_none() {
            self.tell(LowerFault::BadPath, token)?;
        }
        Ok(path)
    }

    /// The imports of a `use`, each with its place among those that are written. One whose path is
    /// wrong is left out.
    pub(crate) fn imports(
        &mut self,
        session: &mut Interner,
        written: Span,
    ) -> Result<Seq<UseImport>, AllocError> {
        let mut imports = Vec::new(self.alloc);
        for at in written.from..written.to {
            let Some(import) = self.context.list.imports.get(at as usize) else {
                break;
            };
            let import = *import;
            if let Some(path) = self.import_path(session, import.path)? {
                imports.push(UseImport {
                    idx: at.saturating_sub(written.from),
                    path,
                    kind: import_kind(import.kind),
                    alias: self.alias(session, import.alias)?,
                })?;
            }
        }
        Ok(Seq::from_vec(imports))
    }
}
