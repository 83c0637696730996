//! The workspace: all that is read, and what was collected of it.
ghost use Rattle.std.specs.Prelude.{◌≡◌, ◌++◌, ◌∷◌, [], IfOk, OnOk};

use crate::builtins::database;
use crate::calls::CallTable;
use crate::times::Times;
use def_ids::Edition;
use def_interner::Interner;
use def_map::LangCrate;
use indexmap::IndexMap;
use item_tree::{Crate, FileId, HirFileId};
use rust_cfg::CfgOptions;
use rust_codebase::{CollectedCrate, Fault, FaultKind, FaultPlace, ReadFile, SourceFile};
use rust_item_trees::InnerMacros;
use rust_lexer::Sources;
use rust_oracle::Oracle;
use std::alloc::{AllocError, Global};

/// A crate that is to be read and collected.
#[derive(Drop)]
pub struct CrateRequest {
    pub name: String,
    /// The path of its root file.
    pub root: String,
    pub edition: Edition,
    pub options: CfgOptions,
    pub is_proc_macro: bool,
    /// The crates that it depends on, each by the name that it has there.
    pub dependencies: Vec<(String, Crate)>,
    pub lang: Option<LangCrate>,
}

/// All that was read, and what was collected of it.
pub struct Workspace {
    pub alloc: Global,
    pub sources: Sources,
    pub files: IndexMap<FileId, SourceFile>,
    pub read: IndexMap<HirFileId, ReadFile>,
    pub oracle: Oracle,
    pub session: Interner,
    pub crates: Vec<CollectedCrate>,
    pub faults: Vec<Fault>,
    /// How long all of it took.
    pub times: Times,
    /// The crate of each text, by its number.
    pub(crate) crate_of: Vec<Crate>,
    /// The macros whose calls of others mean those of their own crate.
    pub(crate) inner_macros: Vec<InnerMacros>,
    /// The number of the next variant.
    pub(crate) next_variant: usize,
    pub(crate) calls: CallTable,
}

impl Drop for Workspace {
    fn drop(self) {
        let Workspace {
            alloc: _,
            sources: _,
            files: _,
            read: _,
            oracle: _,
            session: _,
            crates: _,
            faults: _,
            times: _,
            crate_of: _,
            inner_macros: _,
            next_variant: _,
            calls: _,
        } = self;
    }
}

impl Workspace {
    /// A workspace of no crate.
    pub fn new(alloc: Global) -> Result<Workspace, AllocError>
        ensures crates { IfOk result (λ made. made.crates.items ≡ []) }
        ensures faults { IfOk result (λ made. made.faults.items ≡ []) }
    {
        let mut session = Interner::new(alloc)?;
        let db = database(alloc, &mut session)?;
        Ok(Workspace {
            alloc,
            sources: Sources::new(alloc),
            files: IndexMap::new(alloc),
            read: IndexMap::new(alloc),
            oracle: Oracle::new(alloc, db),
            session,
            crates: Vec::new(alloc),
            faults: Vec::new(alloc),
            times: Times::new(),
            crate_of: Vec::new(alloc),
            inner_macros: Vec::new(alloc),
            next_variant: 0,
            calls: CallTable::new(alloc),
        })
    }

    /// Writes a fault down.
    pub(crate) fn tell(&mut self, place: FaultPlace, kind: FaultKind) -> Result<(), AllocError>
        ensures last { OnOk result (self.new.faults.items ≡ self.old.faults.items ++ (record { place = place; kind = kind } ∷ [])) }
        ensures rest { self.new ≡ record self.old { faults = self.new.faults } }
    {
        self.faults.push(Fault { place, kind })?;
        Ok(())
    }
}
