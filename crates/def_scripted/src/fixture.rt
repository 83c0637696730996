//! What is read of a row: a scripted workspace, and the lines that are wanted of it.

use def_ids::{BuiltinAttr, Edition, ImplId, MacroId, MacroRulesId, TraitId};
use def_oracle::LangCrate;
use item_tree::{FileId, HirFileId, MacroCallStyles};
use std::alloc::{AllocError, Global};

/// A crate on which another one depends.
#[derive(Drop)]
pub struct DependencyText<'t> {
    pub name: &'t str,
    pub krate: usize,
    pub prelude: bool,
    pub sysroot: bool,
}

/// A procedural macro that was built, with its number.
#[derive(Drop)]
pub struct BuiltText<'t> {
    pub name: &'t str,
    pub number: u32,
    pub is_disabled: bool,
}

/// A crate, with the crates on which it depends.
#[derive(Drop)]
pub struct CrateText<'t> {
    pub krate: usize,
    pub edition: Edition,
    /// The number of its root file.
    pub root_file: usize,
    /// Which crate of the language it is, if it is one.
    pub lang: Option<LangCrate>,
    /// Whether its data say that it is one of procedural macros.
    pub proc_macro: bool,
    pub deps: Vec<DependencyText<'t>>,
    /// The procedural macros that were built for it.
    pub built: Vec<BuiltText<'t>>,
}

impl<'t> CrateText<'t> {
    /// A crate of edition 2021 with no dependencies, which is none of the language and none of
    /// procedural macros.
    pub(crate) fn new(alloc: Global, krate: usize, root_file: usize) -> CrateText<'t> {
        CrateText {
            krate,
            edition: Edition::Edition2021,
            root_file,
            lang: None,
            proc_macro: false,
            deps: Vec::new(alloc),
            built: Vec::new(alloc),
        }
    }
}

/// A builtin type, with its number.
#[derive(Drop)]
pub struct BuiltinText<'t> {
    pub name: &'t str,
    pub number: u32,
}

/// A builtin attribute macro.
#[derive(Drop)]
pub struct BuiltinAttrText<'t> {
    pub name: &'t str,
    pub attr: BuiltinAttr,
}

/// A builtin macro, with its number.
#[derive(Drop)]
pub struct BuiltinMacroText<'t> {
    pub name: &'t str,
    pub number: u32,
    pub is_eager: bool,
}

/// A builtin derive, with its number.
#[derive(Drop)]
pub struct BuiltinDeriveText<'t> {
    pub name: &'t str,
    pub number: u32,
    /// The traits that it implements.
    pub traits: Vec<u32>,
    /// Whether it gives impls with no expansion.
    pub has_impl: bool,
}

/// A macro that may be called in these ways, and not only as `m!(..)`: where it stands.
#[derive(Drop)]
pub struct StyleText {
    pub file: HirFileId,
    pub ast_id: usize,
    pub styles: MacroCallStyles,
}

/// How a macro is called.
#[derive(Clone, Copy)]
pub enum CalledBy {
    /// By a call that is the item.
    Call,
    /// By an attribute of the item.
    Attr,
    /// By a path of a derive list: the attribute's number, and the path's place.
    Derive { attr: usize, pos: usize },
}

/// A macro call, an attribute's or a derive's that is answered, where this macro is found for its
/// path.
#[derive(Clone, Copy)]
pub struct CallText<'t> {
    /// Where it stands: the file, and the item's number.
    pub file: HirFileId,
    pub ast_id: usize,
    pub of: MacroId,
    /// The text of its expansion.
    pub gives: &'t str,
    pub is_include: bool,
    pub by: CalledBy,
    /// The error of its answer.
    pub err: Option<u32>,
    /// Whether its answer names no call.
    pub is_silent: bool,
    /// The earlier call that answers in its place, if one does. Then it has no text.
    pub same: Option<usize>,
}

impl<'t> CallText<'t> {
    /// The call that is item 1 of file 0, of the first macro by rules, with this expansion.
    pub(crate) fn new(gives: &'t str) -> CallText<'t> {
        CallText {
            file: HirFileId::File(FileId(0)),
            ast_id: 1,
            of: MacroId::MacroRules(MacroRulesId(0)),
            gives,
            is_include: false,
            by: CalledBy::Call,
            err: None,
            is_silent: false,
            same: None,
        }
    }
}

/// A call that was made for the arguments of another one.
#[derive(Clone, Copy)]
pub struct InnerText {
    /// The number of the other one.
    pub of: usize,
    /// Where it stands: the file, and the item's number.
    pub file: HirFileId,
    pub ast_id: usize,
    /// Its own number.
    pub call: usize,
}

/// Macro calls in a row, all answered as the first one is.
#[derive(Drop)]
pub struct ChainText<'t> {
    pub first: CallText<'t>,
    /// The number of each other one's item in the expansion of the one before it. Where there is none,
    /// each stands behind the one before it, in the same file.
    pub ast_id: Option<usize>,
    pub length: usize,
    /// The text of the last expansion.
    pub last: &'t str,
}

/// The text of a file, whose last line stands there so often.
#[derive(Drop)]
pub struct FileText<'t> {
    pub text: &'t str,
    pub times: usize,
}

/// What an oracle does not know, though the row has it.
#[derive(Drop)]
pub enum Unknown {
    Files,
    Crates,
    Variants,
    Maps,
    /// The maps that are collected, where associated items are asked for.
    FinishedMaps,
    /// What paths may begin with in each crate, where associated items are asked for.
    LocalMaps,
    /// The items of traits, impls and expansions.
    Items,
}

/// What is asked for its associated items.
#[derive(Clone, Copy)]
pub enum Asked {
    Trait(TraitId),
    Impl(ImplId),
}

/// A question about the associated items of a trait or an impl: what these are, or what some names
/// mean among those of a trait.
#[derive(Drop)]
pub struct AskText<'t> {
    pub of: Asked,
    pub names: Vec<&'t str>,
}

/// A block of the crate that is shown.
#[derive(Drop)]
pub struct BlockText<'t> {
    /// How deep its file lies in expansions of macros.
    pub depth: u32,
    /// The modules of the crate that it stands in, the innermost first.
    pub modules: Vec<u32>,
    pub items: &'t str,
}

/// A run of the program that prints maps.
#[derive(Drop)]
pub struct ProgramText<'t> {
    pub words: Vec<&'t str>,
    /// Whether its words are no text, so that they are not looked at.
    pub is_no_text: bool,
    pub status: u8,
    /// What it says beside the lines that are shown.
    pub says: &'t str,
}

/// A row: a scripted workspace, and the lines that are wanted of it, each time without the end of the
/// last. Its crates stand each behind those that it depends on, and the last one is shown.
#[derive(Drop)]
pub struct Fixture<'t> {
    pub name: &'t str,
    /// The name of the scripted workspace that stands for this one, if one does.
    pub vector: Option<&'t str>,
    /// The run of the program that is shown in the place of a crate, if one is.
    pub program: Option<ProgramText<'t>>,
    /// What the oracle does not know, though the row has it.
    pub unknown: Vec<Unknown>,
    /// The files by number.
    pub files: Vec<FileText<'t>>,
    /// The paths that lead from every file to one, by its number.
    pub paths: Vec<(&'t str, usize)>,
    /// How deep files lie in expansions of macros.
    pub depths: Vec<(HirFileId, u32)>,
    pub crates: Vec<CrateText<'t>>,
    pub builtin_types: Vec<BuiltinText<'t>>,
    pub builtin_attrs: Vec<BuiltinAttrText<'t>>,
    pub builtin_macros: Vec<BuiltinMacroText<'t>>,
    pub builtin_derives: Vec<BuiltinDeriveText<'t>>,
    /// Whether builtin derives give impls with no expansion where they can.
    pub derive_fast_path: bool,
    /// Whether procedural macros that are attributes are expanded.
    pub expand_attr_macros: bool,
    /// The words that `cfg` knows of the crate that is shown.
    pub flags: Vec<&'t str>,
    /// The macro calls that are answered, each with its place as its number.
    pub calls: Vec<CallText<'t>>,
    /// The calls that were made for the arguments of those.
    pub inner: Vec<InnerText>,
    /// Calls in a row, whose numbers go on from those of the calls.
    pub chain: Option<ChainText<'t>>,
    pub styles: Vec<StyleText>,
    /// The block that is shown in the place of its crate, if one is.
    pub block: Option<BlockText<'t>>,
    /// What is asked about associated items beside those of the crate that is shown.
    pub asks: Vec<AskText<'t>>,
    /// The lines that are wanted of associated items, if any are.
    pub items: Option<&'t str>,
    /// The lines that are wanted of what is recorded, if any are.
    pub records: Option<&'t str>,
    /// The lines that are wanted of what is kept in an order, if any are.
    pub orders: Option<&'t str>,
    pub shows: &'t str,
}

impl<'t> Fixture<'t> {
    /// A row of which nothing is read yet.
    pub(crate) fn new(alloc: Global) -> Fixture<'t> {
        Fixture {
            name: "",
            vector: None,
            program: None,
            unknown: Vec::new(alloc),
            files: Vec::new(alloc),
            paths: Vec::new(alloc),
            depths: Vec::new(alloc),
            crates: Vec::new(alloc),
            builtin_types: Vec::new(alloc),
            builtin_attrs: Vec::new(alloc),
            builtin_macros: Vec::new(alloc),
            builtin_derives: Vec::new(alloc),
            derive_fast_path: false,
            expand_attr_macros: true,
            flags: Vec::new(alloc),
            calls: Vec::new(alloc),
            inner: Vec::new(alloc),
            chain: None,
            styles: Vec::new(alloc),
            block: None,
            asks: Vec::new(alloc),
            items: None,
            records: None,
            orders: None,
            shows: "",
        }
    }

    /// Adds what a row need not say: with no crate one stands alone, and with no file one is empty.
    pub(crate) fn complete(&mut self, alloc: Global) -> Result<(), AllocError> {
        if self.crates.is_empty() {
            self.crates.push(CrateText::new(alloc, 0, 0))?;
        }
        if self.files.is_empty() {
            self.files.push(FileText { text: "", times: 1 })?;
        }
        Ok(())
    }
}
