//! Reading texts: from the bytes of a file to its item tree, each file once.
ghost use Rattle.std.specs.Prelude.{◌≡◌, ◌-◌, IsSome, string_bytes};
ghost use Rattle.indexmap.specs.IndexMap.{get_by_text};

use crate::calls::CallAhead;
use crate::texts::{context_of, read_text};
use crate::workspace::Workspace;
use def_database::Database;
use indexmap::{IndexMap, IndexSet};
use item_tree::{Crate, FileId, HirFileId, InFile, MacroCallId, Name, TreeId};
use rust_cfg::CfgOptions;
use rust_codebase::{Fault, FaultKind, FaultPlace, ReadFile, SourceFile};
use rust_item_trees::{Lowered, lower};
use rust_lexer::SourceId;
use source_files::Files;
use std::alloc::{AllocError, Global};

/// The tokens that the expansions of a crate may have together.
const TOKEN_LIMIT: usize = 8_000_000;

/// The crate that is being read.
pub(crate) struct Reading {
    pub(crate) krate: Crate,
    pub(crate) options: CfgOptions,
    /// The files that were read, by their paths.
    pub(crate) paths: IndexMap<String, FileId>,
    /// For each file the one in which its module is declared; for the root itself.
    pub(crate) parents: IndexMap<FileId, FileId>,
    /// What was read and is still to be walked, each with the number of its directory.
    pub(crate) waiting: Vec<(HirFileId, u32)>,
    /// The definition of each name of a macro of the crate. None where there are several.
    pub(crate) named: IndexMap<Name, Option<u32>>,
    /// The calls that were met, in order, of which the first ones were looked at.
    pub(crate) ahead: Vec<CallAhead>,
    pub(crate) looked_at: usize,
    /// The calls that the last round made.
    pub(crate) made: IndexSet<MacroCallId>,
    /// The files of the last round's modules.
    pub(crate) entered: IndexSet<FileId>,
    /// What is wrong in files and expansions. It is told of those that the last round has.
    pub(crate) faults: Vec<(HirFileId, Fault)>,
    pub(crate) expanded: usize,
    /// The tokens that further expansions may have.
    pub(crate) tokens_left: usize,
    /// Whether it was told that they have too many.
    pub(crate) is_too_long: bool,
}

impl Drop for Reading {
    fn drop(self) {
        let Reading {
            krate: _,
            options: _,
            paths: _,
            parents: _,
            waiting: _,
            named: _,
            ahead: _,
            looked_at: _,
            made: _,
            entered: _,
            faults: _,
            expanded: _,
            tokens_left: _,
            is_too_long: _,
        } = self;
    }
}

impl Reading {
    /// A crate of which nothing was read.
    pub(crate) fn new(alloc: Global, krate: Crate, options: CfgOptions) -> Reading {
        Reading {
            krate,
            options,
            paths: IndexMap::new(alloc),
            parents: IndexMap::new(alloc),
            waiting: Vec::new(alloc),
            named: IndexMap::new(alloc),
            ahead: Vec::new(alloc),
            looked_at: 0,
            made: IndexSet::new(alloc),
            entered: IndexSet::new(alloc),
            faults: Vec::new(alloc),
            expanded: 0,
            tokens_left: TOKEN_LIMIT,
            is_too_long: false,
        }
    }

    /// Writes down what is wrong in a file or an expansion.
    pub(crate) fn note(
        &mut self,
        file: HirFileId,
        place: FaultPlace,
        kind: FaultKind,
    ) -> Result<(), AllocError> {
        self.faults.push((file, Fault { place, kind }))?;
        Ok(())
    }

    /// Whether the last round has a file or an expansion.
    pub(crate) fn has(&self, file: HirFileId) -> bool {
        match file {
            HirFileId::File(file) => self.entered.contains(&file),
            HirFileId::Macro(call) => self.made.contains(&call),
        }
    }

    /// Takes tokens from those that further expansions may have.
    pub(crate) fn spend(&mut self, tokens: usize)
        ensures { self.new ≡ record self.old { tokens_left = self.old.tokens_left - tokens } }
    {
        self.tokens_left = self.tokens_left.saturating_sub(tokens);
    }
}

/// Tells a database of the items of a file or an expansion, and writes down what is wrong with them.
fn add_lowered(
    db: &mut Database,
    reading: &mut Reading,
    file: HirFileId,
    lowered: Lowered,
) -> Result<(), AllocError> {
    let Lowered {
        tree,
        variants,
        assoc: _,
        inner_macros: _,
        faults,
    } = lowered;
    db.add_tree(TreeId { file, block: None }, tree)?;
    for (value, of_enum) in variants {
        db.add_variants(InFile { file, value }, of_enum)?;
    }
    for error in faults {
        let place = FaultPlace::At(error.place);
        reading.note(file, place, FaultKind::Lower(error.fault))?;
    }
    Ok(())
}

impl Workspace {
    /// Lowers what was read of a file or an expansion.
    fn lowered(&mut self, options: &CfgOptions, read: &ReadFile) -> Result<Lowered, AllocError> {
        let crates = self.crate_of.as_slice();
        let inner_macros = self.inner_macros.as_slice();
        let (trees, list) = (&read.trees, &read.list);
        let context = context_of(&self.sources, trees, list, options, crates, inner_macros);
        lower(
            self.alloc,
            &context,
            &mut self.session,
            &mut self.next_variant,
        )
    }

    /// Keeps what was read of a file or an expansion, and what that is lowered to.
    pub(crate) fn add_items(
        &mut self,
        reading: &mut Reading,
        file: HirFileId,
        read: ReadFile,
    ) -> Result<(), AllocError> {
        let lowered = self.lowered(&reading.options, &read)?;
        let inner_macros = lowered.inner_macros.as_slice();
        self.inner_macros.extend_from_slice(inner_macros)?;
        add_lowered(&mut self.oracle.db, reading, file, lowered)?;
        self.read.insert(file, read)?;
        Ok(())
    }

    /// The text of a file's bytes, which is empty where they are none.
    fn text_of(
        &self,
        reading: &mut Reading,
        file: HirFileId,
        path: &str,
        bytes: Vec<u8>,
    ) -> Result<String, AllocError> {
        match String::from_utf8(bytes) {
            Ok(text) => Ok(text),
            Err(_) => {
                let path = String::from_str(self.alloc, path)?;
                reading.note(file, FaultPlace::Path(path), FaultKind::NotUtf8)?;
                Ok(String::new(self.alloc))
            }
        }
    }

    /// Takes the bytes at a path as a text, whose items will be those of a file or an expansion. None
    /// where there are too many texts, which is told.
    pub(crate) fn add_text(
        &mut self,
        reading: &mut Reading,
        items: HirFileId,
        path: String,
        bytes: Vec<u8>,
    ) -> Result<Option<(FileId, SourceId)>, AllocError> {
        let text = self.text_of(reading, items, path.as_str(), bytes)?;
        let Some(source) = self.sources.add(text)? else {
            self.tell(FaultPlace::Path(path), FaultKind::TooManyTexts)?;
            return Ok(None);
        };
        let krate = reading.krate;
        self.crate_of.push(krate)?;
        let file = FileId(self.files.len());
        self.files.insert(
            file,
            SourceFile {
                path,
                source,
                krate,
            },
        )?;
        Ok(Some((file, source)))
    }

    /// Reads a file of these bytes. Where something is wrong with it, it has no items.
    pub(crate) fn add_file(
        &mut self,
        reading: &mut Reading,
        path: String,
        bytes: Vec<u8>,
    ) -> Result<Option<FileId>, AllocError> {
        let items = HirFileId::File(FileId(self.files.len()));
        let Some((file, source)) = self.add_text(reading, items, path.clone()?, bytes)? else {
            return Ok(None);
        };
        reading.paths.insert(path, file)?;
        match read_text(self.alloc, &self.sources, source)? {
            Ok(read) => self.add_items(reading, items, read)?,
            Err(fault) => reading.note(items, FaultPlace::At(fault.place), fault.kind)?,
        }
        Ok(Some(file))
    }

    /// The file at a path, which is read at the first time. None where there is none.
    pub(crate) fn file_at<F: Files>(
        &mut self,
        reading: &mut Reading,
        files: &F,
        path: String,
    ) -> Result<Option<FileId>, AllocError>
        ensures { let known = get_by_text reading.old.paths (string_bytes path) in IsSome known → result ≡ Ok known }
    {
        if let Some(file) = reading.paths.get(path.as_str()) {
            return Ok(Some(*file));
        }
        match files.read(path.as_str())? {
            Some(bytes) => self.add_file(reading, path, bytes),
            None => Ok(None),
        }
    }
}
