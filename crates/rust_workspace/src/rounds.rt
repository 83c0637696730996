//! Crates, collected in rounds: what each round calls is expanded for the next one, until no further
//! call comes up.

use crate::calls::kept;
use crate::reading::Reading;
use crate::times::add_since;
use crate::workspace::Workspace;
use def_collector::{Collected, collect_defs};
use def_ids::{Edition, Macro2Id, MacroExpander, MacroId, MacroRulesId};
use def_interner::LocationId;
use def_map::{DefMap, ModuleOrigin};
use item_tree::{Crate, FileAstId, FileId, HirFileId, InFile, MacroCallId, TreeId};
use rust_codebase::{FaultKind, FaultPlace};
use rust_oracle::{CallNumber, CalledMacro, INCLUDE};
use source_files::Files;
use std::alloc::AllocError;

/// How many times a crate is collected at most.
const ROUNDS: usize = 600;

/// What a crate is collected from.
#[derive(Clone, Copy)]
pub(crate) struct Root {
    pub(crate) krate: Crate,
    pub(crate) edition: Edition,
    pub(crate) file: FileId,
}

/// Whether what expands a macro is the builtin `include`.
fn is_include(expander: MacroExpander) -> bool {
    matches!(expander, MacroExpander::BuiltInEager(number) if number == INCLUDE)
}

/// Takes up the files of a round's modules.
fn take_up_files(reading: &mut Reading, map: &DefMap, root: FileId) -> Result<(), AllocError> {
    reading.entered.clear();
    reading.entered.insert(root)?;
    for module in map.modules() {
        if let ModuleOrigin::File { file, .. } = module.origin {
            reading.entered.insert(file)?;
        }
    }
    Ok(())
}

impl Workspace {
    /// Collects a crate once, over what the oracle knows.
    fn collect(&mut self, root: Root) -> Result<Collected, AllocError> {
        let seeded = DefMap::seed(self.alloc, root.krate, root.edition, None)?;
        let tree = TreeId {
            file: HirFileId::File(root.file),
            block: None,
        };
        collect_defs(
            self.alloc,
            &self.oracle,
            &mut self.session,
            seeded,
            tree,
            None,
        )
    }

    /// Writes down of which definition a macro is, and whether it is `include`.
    fn learn(
        &mut self,
        id: MacroId,
        position: InFile<FileAstId>,
        expander: MacroExpander,
    ) -> Result<(), AllocError> {
        let (number, _) = self.calls.definitions.insert_full(position)?;
        self.oracle.definitions.insert(id, kept(number))?;
        if is_include(expander) {
            self.calls.includes.insert(kept(number))?;
        }
        Ok(())
    }

    /// Writes down of which definitions the macros are that the session has since it was last looked
    /// at. Answers whether there are any.
    fn learn_macros(&mut self) -> Result<bool, AllocError> {
        let before = self.calls.learned;
        let after = (self.session.macro_rules.len(), self.session.macro2s.len());
        for number in before.0..after.0 {
            let id = MacroRulesId(number);
            if let Some(loc) = id.lookup(&self.session) {
                let (position, expander) = (loc.position, loc.expander);
                self.learn(MacroId::MacroRules(id), position, expander)?;
            }
        }
        for number in before.1..after.1 {
            let id = Macro2Id(number);
            if let Some(loc) = id.lookup(&self.session) {
                let (position, expander) = (loc.position, loc.expander);
                self.learn(MacroId::Macro2(id), position, expander)?;
            }
        }
        self.calls.learned = after;
        Ok(before != after)
    }

    /// The number that a call is to have, now that its macro is known.
    fn settled(&self, call: MacroCallId) -> MacroCallId {
        let number = CallNumber::of(call);
        match number.called {
            CalledMacro::Known(_) => call,
            CalledMacro::Unknown(id) => match self.oracle.definitions.get(&id) {
                Some(definition) => CallNumber::known(number.place, *definition),
                None => call,
            },
        }
    }

    /// Takes up the calls that a round made, and the files of its modules.
    fn take_up(&self, reading: &mut Reading, map: &DefMap, root: FileId) -> Result<(), AllocError> {
        reading.made.clear();
        take_up_files(reading, map, root)?;
        for module in 0..map.modules().len() {
            let Some(made) = map.scope(module).and_then(|scope| scope.invocations()) else {
                continue;
            };
            for invocation in made {
                reading.made.insert(self.settled(invocation.call))?;
            }
        }
        Ok(())
    }

    /// Expands the calls of the last round that were not yet expanded. Answers whether there were any.
    fn expand_made<F: Files>(
        &mut self,
        reading: &mut Reading,
        files: &F,
    ) -> Result<bool, AllocError> {
        let before = reading.expanded;
        for number in 0..reading.made.len() {
            let Some(call) = reading.made.get_index(number).copied() else {
                break;
            };
            if !self.oracle.origins.contains_key(&call) {
                self.expand_call(reading, files, call)?;
                self.follow(reading, files)?;
                self.expand_ahead(reading, files)?;
            }
        }
        Ok(reading.expanded > before)
    }

    /// Collects a crate for a round, and expands the calls that come up for the first time. Answers
    /// whether none did, and no call was answered by a guess.
    fn round<F: Files>(
        &mut self,
        reading: &mut Reading,
        files: &F,
        root: Root,
    ) -> Result<(Collected, bool), AllocError> {
        let begin = files.microseconds();
        let collected = self.collect(root)?;
        add_since(&mut self.times.collecting, files, begin);
        // Where the macros of all calls were known, nothing was answered by a guess.
        let is_new = self.learn_macros()?;
        self.take_up(reading, &collected.def_map, root.file)?;
        let begin = files.microseconds();
        let is_expanded = self.expand_made(reading, files)?;
        add_since(&mut self.times.expanding, files, begin);
        let is_last = !is_expanded && (!is_new || reading.made.is_empty());
        Ok((collected, is_last))
    }

    /// Writes down that a call of the last round lies too deep in expansions, if one does. The
    /// collector leaves out what such a call gives.
    fn note_too_deep(&self, reading: &mut Reading, limit: u32) -> Result<(), AllocError> {
        for number in 0..reading.made.len() {
            if let Some(call) = reading.made.get_index(number).copied()
                && let Some(site) = self.site_of(call)
                && self.depth_within(site.position.file) > limit
            {
                return self.note_of_call(reading, call, site, FaultKind::TooManyRounds);
            }
        }
        Ok(())
    }

    /// Collects a crate in rounds, until no further call comes up. Answers the last round, and how
    /// many there were.
    pub(crate) fn collect_in_rounds<F: Files>(
        &mut self,
        reading: &mut Reading,
        files: &F,
        root: Root,
    ) -> Result<(Collected, usize), AllocError> {
        for round in 1..ROUNDS {
            let (collected, is_last) = self.round(reading, files, root)?;
            if is_last {
                self.note_too_deep(reading, collected.def_map.recursion_limit())?;
                return Ok((collected, round));
            }
        }
        if let Some(file) = self.files.get(&root.file) {
            let path = file.path.clone()?;
            self.tell(FaultPlace::Path(path), FaultKind::TooManyRounds)?;
        }
        let (collected, _) = self.round(reading, files, root)?;
        Ok((collected, ROUNDS))
    }
}
