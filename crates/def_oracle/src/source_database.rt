//! What is asked of a database, and what it answers.

use def_ids::{ImplId, TraitId, VariantId};
use def_interner::MacroDefId;
use item_tree::{
    AttrId, AttrInput, AttrsOrCfg, Crate, ExpandTo, FileAstId, FileId, InFile, MacroCallId,
    ModPath, Name, Seq, SyntaxContext,
};

/// A crate of the language itself.
#[derive(Clone, Copy)]
pub enum LangCrate {
    Core,
    Std,
}

/// A crate that another one depends on.
#[derive(Clone, Copy)]
pub struct Dependency {
    /// Under which name the other crate knows it.
    pub name: Name,
    pub krate: Crate,
    /// Whether its name is in the extern prelude.
    pub prelude: bool,
    /// Whether it comes with the compiler.
    pub sysroot: bool,
}

/// What is known of a crate.
#[derive(Drop)]
pub struct CrateData {
    pub root_file: FileId,
    /// Whether it is a crate of procedural macros.
    pub proc_macro: bool,
    pub lang: Option<LangCrate>,
    pub deps: Seq<Dependency>,
}

/// A macro call that is asked for.
#[derive(Clone, Copy)]
pub struct CallQuery<'a> {
    pub position: InFile<FileAstId>,
    pub path: &'a ModPath,
    pub ctxt: SyntaxContext,
    pub kind: ExpandTo,
    pub krate: Crate,
    /// The depth of the expansion that the call would give.
    pub depth: u32,
    pub recursion_limit: u32,
}

/// What a macro call gave: its number, if there is one, an error's number, and the calls that were
/// made for its arguments, each with its position.
#[derive(Drop)]
pub struct CallAnswer {
    pub value: Option<MacroCallId>,
    pub err: Option<u32>,
    pub inner: Seq<(InFile<FileAstId>, MacroCallId)>,
}

/// The path of a macro that was not found.
#[derive(Drop)]
pub struct UnresolvedMacro {
    pub path: ModPath,
}

/// An attribute macro's call that is asked for.
#[derive(Clone, Copy)]
pub struct AttrCallQuery<'a> {
    pub krate: Crate,
    pub macro_def: MacroDefId,
    /// The item that has the attribute.
    pub position: InFile<FileAstId>,
    pub attr_id: AttrId,
    pub input: Option<&'a AttrInput>,
    pub ctxt: SyntaxContext,
    /// The attributes that the expansion is not to see.
    pub censored: &'a [AttrId],
    pub depth: u32,
}

/// A derive's call that is asked for.
#[derive(Clone, Copy)]
pub struct DeriveCallQuery {
    pub krate: Crate,
    pub macro_def: MacroDefId,
    /// The item that has the derive attribute.
    pub position: InFile<FileAstId>,
    pub attr_id: AttrId,
    /// The place of the derive's path in the attribute's list.
    pub pos: usize,
    /// The context of that path.
    pub ctxt: SyntaxContext,
    /// The call of the derive attribute.
    pub derive_call: MacroCallId,
    pub depth: u32,
}

/// A variant of an enum.
#[derive(Clone, Copy)]
pub struct EnumVariant {
    pub name: Name,
    pub id: VariantId,
    /// Whether it is in values too.
    pub value_ctor: bool,
}

/// What has associated items.
#[derive(Clone, Copy, PartialEq, Eq)]
pub enum AssocItemsOwner {
    Trait(TraitId),
    Impl(ImplId),
    /// The expansion of a macro call among associated items.
    Expansion(MacroCallId),
}

/// What an associated item is.
#[derive(Drop)]
pub enum AssocItemKind {
    Fn(Option<Name>),
    TypeAlias(Option<Name>),
    Const(Option<Name>),
    MacroCall {
        path: Option<ModPath>,
        ctxt: SyntaxContext,
    },
    Other,
}

/// An associated item.
#[derive(Drop)]
pub struct AssocItem {
    pub ast_id: FileAstId,
    pub attrs: Option<AttrsOrCfg>,
    pub kind: AssocItemKind,
}

/// The items of a trait, an impl or an expansion.
#[derive(Drop)]
pub struct AssocList {
    /// Whether the trait is an alias of other traits.
    pub is_alias: bool,
    pub items: Seq<AssocItem>,
}
