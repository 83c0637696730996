//! A scripted workspace at work: a session, and the database of its files and crates.

ghost use Rattle.std.specs.Prelude.{◌≡◌, IfOk};
ghost use Rattle.def_interner.specs.Session.{AddsLocations, session_of};
ghost use Rattle.def_database.specs.Database.{answers_of};
ghost use Rattle.def_collector.specs.Answer.{shown};
ghost use Rattle.def_rules.specs.Headline.{Answers};
ghost use Rattle.def_workspace.specs.Workspace.{file_tree, setting};

use crate::fault::Fault;
use def_collector::{Collected, collect_defs};
use def_database::{Database, DeriveCallKey};
use def_ids::VariantId;
use def_interner::Interner;
use def_map::{AssocItemsOwner, AssocList, CallAnswer, CrateData, DefMap, Dependency, EnumVariant};
use def_scripted::{
    BuiltText, BuiltinDeriveText, BuiltinMacroText, CallText, CalledBy, ChainText, CrateText,
    DependencyText, FileText, Fixture, InnerText, ReadAssoc, ReadEnum, ReadFault, ReadFile,
    list_of, read,
};
use either::Either;
use item_tree::{
    AttrId, Crate, FileAstId, FileId, HirFileId, InFile, ItemTree, MacroCallId, Seq, TreeId,
};
use std::alloc::{AllocError, Global};

/// The items of the trait or the impl that is this item of a file or a block.
#[derive(Drop)]
pub struct AssocText {
    pub tree: TreeId,
    pub item: FileAstId,
    pub list: AssocList,
}

/// A session, and a database whose answers are in its names.
pub struct Workspace {
    pub alloc: Global,
    pub session: Interner,
    pub db: Database,
    /// The items of the traits and impls of all texts, which have ids only once these are collected.
    pub assoc: Vec<AssocText>,
}

impl Drop for Workspace {
    fn drop(self) {
        let Workspace {
            alloc: _,
            session: _,
            db: _,
            assoc: _,
        } = self;
    }
}

impl Workspace {
    /// A workspace that knows nothing.
    fn empty(alloc: Global) -> Result<Workspace, AllocError> {
        Ok(Workspace {
            alloc,
            session: Interner::new(alloc)?,
            db: Database::new(alloc),
            assoc: Vec::new(alloc),
        })
    }

    /// Adds the files, the macro calls and the crates of a row, and what else its oracle answers.
    fn fill(&mut self, row: &Fixture<'_>) -> Result<(), Fault> {
        self.add_files(row)?;
        self.add_calls(row)?;
        self.add_crates(row)?;
        self.add_macros(row)?;
        self.add_derives(row)?;
        Ok(())
    }

    /// Adds the files of a row, the paths that lead from each to others, and how deep files lie in
    /// expansions.
    fn add_files(&mut self, row: &Fixture<'_>) -> Result<(), Fault> {
        for (number, file) in row.files.iter().enumerate() {
            self.add_file(tree_id(FileId(number)), file)?;
            self.add_paths(FileId(number), row.paths.as_slice())?;
        }
        for (file, depth) in &row.depths {
            self.db.add_depth(*file, *depth)?;
        }
        Ok(())
    }

    /// Adds the macro calls of a row.
    fn add_calls(&mut self, row: &Fixture<'_>) -> Result<(), Fault> {
        for (number, text) in row.calls.iter().enumerate() {
            self.add_call(MacroCallId(number), text, row.inner.as_slice())?;
        }
        if let Some(chain) = &row.chain {
            self.add_chain(row.calls.len(), chain)?;
        }
        Ok(())
    }

    /// Adds the crates of a row with the procedural macros that were built for them, the builtin
    /// types, and the flags of the crate that is shown.
    fn add_crates(&mut self, row: &Fixture<'_>) -> Result<(), AllocError> {
        for krate in &row.crates {
            self.add_crate(krate)?;
            self.add_built(Crate(krate.krate), krate.built.as_slice())?;
        }
        for text in &row.builtin_types {
            let name = self.session.intern_name(text.name)?;
            self.db.add_builtin(name, text.number)?;
        }
        if let Some(krate) = row.crates.last() {
            self.add_flags(Crate(krate.krate), row.flags.as_slice())?;
        }
        Ok(())
    }

    /// Adds words that `cfg` knows of a crate.
    fn add_flags(&mut self, krate: Crate, flags: &[&str]) -> Result<(), AllocError> {
        for flag in flags {
            let name = self.session.intern_name(flag)?;
            self.db.add_flag(krate, name)?;
        }
        Ok(())
    }

    /// Adds how the macros of a row are called, its builtin macros and attributes, and whether
    /// procedural macros that are attributes are expanded.
    fn add_macros(&mut self, row: &Fixture<'_>) -> Result<(), AllocError> {
        for text in &row.builtin_macros {
            let name = self.session.intern_name(text.name)?;
            self.db.add_builtin_macro(name, expander(text))?;
        }
        for text in &row.builtin_attrs {
            let name = self.session.intern_name(text.name)?;
            self.db.add_builtin_attr(name, text.attr)?;
        }
        for text in &row.styles {
            let position = InFile {
                file: text.file,
                value: FileAstId(text.ast_id),
            };
            self.db.add_styles(position, text.styles)?;
        }
        self.db.set_expand_proc_attr_macros(row.expand_attr_macros);
        Ok(())
    }

    /// Adds the builtin derives of a row, and which of them give impls with no expansion.
    fn add_derives(&mut self, row: &Fixture<'_>) -> Result<(), AllocError> {
        for text in &row.builtin_derives {
            self.add_derive(text)?;
        }
        self.db.set_derive_fast_path(row.derive_fast_path);
        Ok(())
    }

    /// Adds a builtin derive.
    fn add_derive(&mut self, text: &BuiltinDeriveText<'_>) -> Result<(), AllocError> {
        let name = self.session.intern_name(text.name)?;
        self.db.add_builtin_derive(name, text.number)?;
        if text.has_impl {
            let traits = text.traits.as_slice().to_vec(self.alloc)?;
            self.db.add_derive_traits(text.number, traits)?;
        }
        Ok(())
    }

    /// The workspace of a row, with no crate collected.
    pub fn new(alloc: Global, row: &Fixture<'_>) -> Result<Workspace, Fault> {
        let mut workspace = Workspace::empty(alloc)?;
        workspace.fill(row)?;
        Ok(workspace)
    }

    /// Adds the paths that lead from a file to others.
    fn add_paths(&mut self, from: FileId, paths: &[(&str, usize)]) -> Result<(), AllocError> {
        for (path, number) in paths {
            self.db.add_path(from, path, FileId(*number))?;
        }
        Ok(())
    }

    /// Adds the items of a file.
    fn add_file(&mut self, id: TreeId, file: &FileText<'_>) -> Result<(), Fault> {
        if file.times == 1 {
            return self.add_text(id, file.text);
        }
        let text = repeated(self.alloc, file)?;
        self.add_text(id, text.as_str())
    }

    /// Adds the items of a file or a block, whose text this is.
    pub fn add_text(&mut self, id: TreeId, text: &str) -> Result<(), Fault> {
        match read(self.alloc, &mut self.session, text) {
            Ok(file) => Ok(self.add_read(id, file)?),
            Err(ReadFault::Memory) => Err(Fault::Memory),
            Err(ReadFault::Byte(byte)) => Err(Fault::Text { tree: id, byte }),
        }
    }

    /// Adds what was read of a file or a block.
    fn add_read(&mut self, id: TreeId, read: ReadFile) -> Result<(), AllocError> {
        let ReadFile { tree, enums, assoc } = read;
        self.add_expansion(id, &tree)?;
        self.db.add_tree(id, tree)?;
        for read in &enums {
            self.add_variants(id.file, read)?;
        }
        self.add_assoc(id, assoc)
    }

    /// Adds the items of an expansion as associated ones, which they are where the call stands among
    /// such.
    fn add_expansion(&mut self, id: TreeId, tree: &ItemTree) -> Result<(), AllocError> {
        match id.file {
            HirFileId::Macro(call) => {
                let list = list_of(self.alloc, tree)?;
                self.db
                    .add_assoc_items(AssocItemsOwner::Expansion(call), list)
            }
            HirFileId::File(_) => Ok(()),
        }
    }

    /// Adds the items of the traits and impls of a file or a block.
    fn add_assoc(&mut self, tree: TreeId, lists: Seq<ReadAssoc>) -> Result<(), AllocError> {
        for read in lists.into_vec() {
            let ReadAssoc { item, list } = read;
            self.assoc.push(AssocText { tree, item, list })?;
        }
        Ok(())
    }

    /// Adds the variants of an enum, which are numbered from 0.
    fn add_variants(&mut self, file: HirFileId, read: &ReadEnum) -> Result<(), AllocError> {
        let mut variants = Vec::new(self.alloc);
        for (number, variant) in read.variants.as_slice().iter().enumerate() {
            variants.push(EnumVariant {
                name: variant.name,
                id: VariantId(number),
                value_ctor: variant.value_ctor,
            })?;
        }
        let position = InFile {
            file,
            value: read.item,
        };
        self.db.add_variants(position, variants)
    }

    /// Adds the answer of a macro call, or the call of an attribute macro or a derive.
    fn add_answer(
        &mut self,
        call: MacroCallId,
        text: &CallText<'_>,
        inner: &[InnerText],
    ) -> Result<(), AllocError> {
        let position = InFile {
            file: text.file,
            value: FileAstId(text.ast_id),
        };
        match text.by {
            CalledBy::Call => {
                let answer = CallAnswer {
                    value: if text.is_silent { None } else { Some(call) },
                    err: text.err,
                    inner: made_for(self.alloc, call, inner)?,
                };
                self.db.add_call(position, text.of, answer)
            }
            CalledBy::Attr => self.db.add_attr_call(position, text.of, call),
            CalledBy::Derive { attr, pos } => {
                let key = DeriveCallKey {
                    position,
                    attr_id: AttrId(attr),
                    pos,
                    macro_id: text.of,
                };
                self.db.add_derive_call(key, call)
            }
        }
    }

    /// Adds a macro call, and the items of its expansion, unless it is answered as an earlier one is.
    /// Some calls were made for the arguments of others.
    pub fn add_call(
        &mut self,
        call: MacroCallId,
        text: &CallText<'_>,
        inner: &[InnerText],
    ) -> Result<(), Fault> {
        if let Some(same) = text.same {
            self.add_answer(MacroCallId(same), text, inner)?;
            return Ok(());
        }
        self.add_answer(call, text, inner)?;
        if text.is_include {
            self.db.add_include(call)?;
        }
        let expansion = TreeId {
            file: HirFileId::Macro(call),
            block: None,
        };
        self.add_text(expansion, text.gives)
    }

    /// Adds calls in a row, numbered from this number on.
    fn add_chain(&mut self, first: usize, chain: &ChainText<'_>) -> Result<(), Fault> {
        for place in 0..chain.length {
            let call = call_at(first, chain, place);
            self.add_call(MacroCallId(first.saturating_add(place)), &call, &[])?;
        }
        Ok(())
    }

    /// A crate on which another one depends.
    fn dependency(&mut self, text: &DependencyText<'_>) -> Result<Dependency, AllocError> {
        Ok(Dependency {
            name: self.session.intern_name(text.name)?,
            krate: Crate(text.krate),
            prelude: text.prelude,
            sysroot: text.sysroot,
        })
    }

    /// Adds what is known of a crate.
    fn add_crate(&mut self, text: &CrateText<'_>) -> Result<(), AllocError> {
        let mut deps = Seq::from_vec(Vec::new(self.alloc));
        for dependency in &text.deps {
            deps.push(self.dependency(dependency)?)?;
        }
        let data = CrateData {
            root_file: FileId(text.root_file),
            proc_macro: text.proc_macro,
            lang: text.lang,
            deps,
        };
        self.db.add_crate(Crate(text.krate), data)
    }

    /// Adds the procedural macros that were built for a crate.
    fn add_built(&mut self, krate: Crate, built: &[BuiltText<'_>]) -> Result<(), AllocError> {
        let mut macros = Vec::new(self.alloc);
        for text in built {
            let name = self.session.intern_name(text.name)?;
            macros.push((name, text.number, text.is_disabled))?;
        }
        self.db.add_proc_macros(krate, macros)
    }

    /// Collects the definitions of a crate.
    pub fn collect(&mut self, text: &CrateText<'_>) -> Result<Collected, AllocError>
        // What is answered ends a run over the crate.
        ensures answers { IfOk result (λ collected.
            Answers (setting (answers_of self.old.db) text.now)
            (session_of self.old.session) (session_of self.new.session) (shown collected)) }
        ensures session { AddsLocations (session_of self.old.session) (session_of self.new.session) }
        ensures db { self.new.db ≡ self.old.db }
    {
        let seeded = DefMap::seed(self.alloc, Crate(text.krate), text.edition, None)?;
        let tree = tree_id(FileId(text.root_file));
        collect_defs(self.alloc, &self.db, &mut self.session, seeded, tree, None)
    }

    /// Collects the definitions of a crate, and hands their map to the crates that depend on it.
    pub fn collect_dependency(&mut self, text: &CrateText<'_>) -> Result<(), AllocError> {
        let Collected {
            def_map,
            local_def_map,
            outcome: _,
            diagnostics: _,
        } = self.collect(text)?;
        self.db.add_map(Crate(text.krate), def_map, local_def_map)
    }
}

/// The tree of a file.
fn tree_id(file: FileId) -> TreeId
    ensures { result ≡ file_tree file }
{
    TreeId {
        file: HirFileId::File(file),
        block: None,
    }
}

/// What expands a builtin macro.
fn expander(text: &BuiltinMacroText<'_>) -> Either<u32, u32> {
    if text.is_eager {
        Either::Right(text.number)
    } else {
        Either::Left(text.number)
    }
}

/// The calls that were made for the arguments of a call, each with its position.
fn made_for(
    alloc: Global,
    call: MacroCallId,
    inner: &[InnerText],
) -> Result<Seq<(InFile<FileAstId>, MacroCallId)>, AllocError> {
    let mut made = Seq::from_vec(Vec::new(alloc));
    for text in inner {
        if text.of == call.0 {
            let position = InFile {
                file: text.file,
                value: FileAstId(text.ast_id),
            };
            made.push((position, MacroCallId(text.call)))?;
        }
    }
    Ok(made)
}

/// The text of a file, whose last line stands there so often.
fn repeated(alloc: Global, file: &FileText<'_>) -> Result<String, AllocError> {
    let (above, last) = file.text.rsplit_once('\n').unwrap_or(("", file.text));
    let mut text = String::from_str(alloc, above)?;
    for _ in 0..file.times {
        text.push_str("\n")?;
        text.push_str(last)?;
    }
    Ok(text)
}

/// The call at a place of a row whose first has this number.
fn call_at<'a>(first: usize, chain: &ChainText<'a>, place: usize) -> CallText<'a> {
    let mut call = chain.first;
    match (chain.ast_id, place.checked_sub(1)) {
        (Some(ast_id), Some(before)) => {
            call.file = HirFileId::Macro(MacroCallId(first.saturating_add(before)));
            call.ast_id = ast_id;
        }
        (Some(_), None) => {}
        (None, _) => call.ast_id = call.ast_id.saturating_add(place),
    }
    if chain.length.saturating_sub(1) <= place {
        call.gives = chain.last;
    }
    call
}
