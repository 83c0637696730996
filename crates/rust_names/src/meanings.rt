//! Modules by their paths, and what a path means in a module.

use crate::names::Names;
use def_ids::ModuleId;
use def_map::{DefMap, PerNs};
use item_tree::{Crate, ModPath, Name, PathKind, Seq};
use rust_codebase::Codebase;
use std::alloc::{AllocError, Global};

/// A path that is asked for: how it begins, and the names behind that. None of a name is one that
/// stands in no text.
#[derive(Drop)]
struct Written {
    kind: PathKind,
    names: Vec<Option<Name>>,
}

/// How a path goes on behind its first word.
fn kind_behind(kind: Option<PathKind>, word: &str) -> Option<PathKind> {
    match (kind, word) {
        (None, "") => Some(PathKind::Abs),
        (None, "crate") => Some(PathKind::Crate),
        (None, "self") => Some(PathKind::Super(0)),
        (None, "super") => Some(PathKind::Super(1)),
        (Some(PathKind::Super(levels)), "super") => Some(PathKind::Super(levels.saturating_add(1))),
        _ => None,
    }
}

/// The module of a name within a module.
fn child_of(map: &DefMap, index: usize, name: Option<Name>) -> Option<usize> {
    map.module(index)?.children.get(&name?).copied()
}

/// Names, where all of them stand in a text.
fn all_names(alloc: Global, names: &[Option<Name>]) -> Result<Option<Vec<Name>>, AllocError> {
    let mut all = Vec::new(alloc);
    for name in names {
        match name {
            Some(name) => all.push(*name)?,
            None => return Ok(None),
        }
    }
    Ok(Some(all))
}

impl<'a, C: Codebase> Names<'a, C> {
    /// Reads a path as it is written in Rust.
    fn read_path(&self, text: &str) -> Result<Written, AllocError> {
        let mut kind = None;
        let mut names = Vec::new(self.alloc);
        for word in text.split("::") {
            let word = word.trim();
            if names.is_empty() {
                if let Some(next) = kind_behind(kind, word) {
                    kind = Some(next);
                    continue;
                }
            }
            let word = word.strip_prefix("r#").unwrap_or(word);
            names.push(self.find_name(word))?;
        }
        let kind = kind.unwrap_or(PathKind::Plain);
        Ok(Written { kind, names })
    }

    /// The module of a crate at a path from its root, which may begin with `crate`.
    pub fn find_module(&self, krate: Crate, text: &str) -> Result<Option<ModuleId>, AllocError> {
        let written = self.read_path(text)?;
        let Some(map) = self.map(krate) else {
            return Ok(None);
        };
        let mut index = 0;
        for name in written.names.iter() {
            match child_of(map, index, *name) {
                Some(found) => index = found,
                None => return Ok(None),
            }
        }
        Ok(Some(ModuleId {
            map: map.id(),
            index,
        }))
    }

    /// What a path means in a module of a crate, in each namespace.
    pub fn meaning(&self, module: ModuleId, text: &str) -> Result<Option<PerNs>, AllocError> {
        let written = self.read_path(text)?;
        let Some(names) = all_names(self.alloc, written.names.as_slice())? else {
            return Ok(None);
        };
        let path = ModPath {
            kind: written.kind,
            segments: Seq::from_vec(names),
        };
        Ok(self.codebase().meaning(module, &path))
    }
}
