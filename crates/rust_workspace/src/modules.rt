//! Modules in files of their own: where each lies, and what is read there.

use crate::directories::add_directory;
use crate::reading::Reading;
use crate::walk::Outline;
use crate::workspace::Workspace;
use def_map::SourceDatabase;
use item_tree::{FileId, HirFileId, InFile};
use rust_codebase::{FaultKind, FaultPlace};
use source_files::{Files, path_from};
use std::alloc::AllocError;

/// How many files may lie in one another.
const FILE_DEPTH: usize = 64;

impl Workspace {
    /// Whether a file is one that another lies in, or that other itself.
    fn is_around(&self, reading: &Reading, file: FileId, inner: FileId) -> bool {
        let mut at = inner;
        for _ in 0..FILE_DEPTH {
            if at == file {
                return true;
            }
            match reading.parents.get(&at) {
                Some(parent) if *parent != at => at = *parent,
                _ => return false,
            }
        }
        true
    }

    /// Leads the first of these paths to a file where there is one, as they are seen from a file.
    fn lead<F: Files>(
        &mut self,
        reading: &mut Reading,
        files: &F,
        anchor: FileId,
        candidates: &[String],
    ) -> Result<Option<FileId>, AllocError> {
        let from = match self.files.get(&anchor) {
            Some(file) => file.path.clone()?,
            None => return Ok(None),
        };
        for candidate in candidates {
            let path = path_from(self.alloc, from.as_str(), candidate.as_str())?;
            if let Some(file) = self.file_at(reading, files, path)? {
                if !self.is_around(reading, file, anchor) {
                    self.oracle.db.add_path(anchor, candidate.as_str(), file)?;
                }
                return Ok(Some(file));
            }
        }
        Ok(None)
    }

    /// Has a module's file walked, in a directory, unless it was.
    fn enter(
        &mut self,
        reading: &mut Reading,
        anchor: FileId,
        file: FileId,
        directory: u32,
    ) -> Result<(), AllocError> {
        if reading.parents.contains_key(&file) {
            return Ok(());
        }
        reading.parents.insert(file, anchor)?;
        reading.waiting.push((HirFileId::File(file), directory))?;
        Ok(())
    }

    /// Finds the file of a module, as its declaration in a file has it, and reads it.
    fn find_module<F: Files>(
        &mut self,
        reading: &mut Reading,
        files: &F,
        file: HirFileId,
        module: &Outline,
    ) -> Result<(), AllocError> {
        let anchor = self.oracle.original_file(file);
        let Some(dir) = self.calls.directories.get(module.directory as usize) else {
            return Ok(());
        };
        let path = module.path.as_deref();
        let name = module.name.as_str();
        let missing = match dir.resolve_declaration(&self.oracle, file, name, path)? {
            Ok((found, _, inner)) => {
                let directory = add_directory(&mut self.calls, inner)?;
                return self.enter(reading, anchor, found, directory);
            }
            Err(candidates) => candidates,
        };
        let Some(found) = self.lead(reading, files, anchor, missing.as_slice())? else {
            return Ok(());
        };
        let Some(dir) = self.calls.directories.get(module.directory as usize) else {
            return Ok(());
        };
        match dir.resolve_declaration(&self.oracle, file, name, path)? {
            Ok((found, _, inner)) => {
                let directory = add_directory(&mut self.calls, inner)?;
                self.enter(reading, anchor, found, directory)
            }
            Err(_) => self.note_circular(reading, file, module, found),
        }
    }

    /// Writes down that a module's file is one that it lies in.
    fn note_circular(
        &self,
        reading: &mut Reading,
        file: HirFileId,
        module: &Outline,
        found: FileId,
    ) -> Result<(), AllocError> {
        if !self.is_around(reading, found, self.oracle.original_file(file)) {
            return Ok(());
        }
        let position = InFile {
            file,
            value: module.item,
        };
        match self.place_of(position) {
            Some(place) => reading.note(file, FaultPlace::At(place), FaultKind::CircularModule),
            None => Ok(()),
        }
    }

    /// Walks what waits, and reads the files of modules, until nothing waits.
    pub(crate) fn follow<F: Files>(
        &mut self,
        reading: &mut Reading,
        files: &F,
    ) -> Result<(), AllocError> {
        for _ in 0..usize::MAX {
            let Some((file, directory)) = reading.waiting.pop() else {
                break;
            };
            let outlines = self.walk(reading, file, directory)?;
            for module in &outlines {
                self.find_module(reading, files, file, module)?;
            }
        }
        Ok(())
    }
}
