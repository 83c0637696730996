//! Items.
ghost use Rattle.std.specs.Prelude.{◌≡◌, option_map};
ghost use Rattle.item_tree.specs.Trees.{children_of};
ghost use Rattle.item_tree.specs.Attrs.{attrs_of, by_key, disabled_by, path_attr};

use crate::attrs::{AttrQuery, AttrsOrCfg};
use crate::mod_path::ModPath;
use crate::sym;
use tree_ids::{CfgExpr, FileAstId, ModItemId, Name, Seq, SyntaxContext};

/// A visibility as it is written. None written is `PubSelf`.
#[derive(Clone, PartialEq, Eq, Debug, Drop)]
pub enum RawVisibility {
    Public,
    PubCrate,
    PubSelf,
    In(ModPath),
}

/// The contents of a module.
#[derive(Drop)]
pub enum ModContents {
    Inline(Seq<ModItemId>),
    /// The items are those of a file of its own.
    Outline,
}

/// What an import takes.
#[derive(Clone, Copy, PartialEq, Eq)]
pub enum ImportKind {
    Plain,
    /// What stands in types alone, as `use a::{self}` takes it.
    TypeOnly,
    /// All names of what its path means.
    Glob,
}

/// The name that an import or an extern crate is given.
#[derive(Clone, Copy, PartialEq, Eq)]
pub enum ImportAlias {
    Alias(Name),
    /// `as _`: no name.
    Underscore,
}

/// One import of a `use`. `idx` is its place among the imports of the `use`, from 0.
#[derive(Drop)]
pub struct UseImport {
    pub idx: u32,
    pub path: ModPath,
    pub kind: ImportKind,
    pub alias: Option<ImportAlias>,
}

/// The constructor of a struct in values.
#[derive(Drop)]
pub enum CtorVisibility {
    NoValueNsCtor,
    ValueNsCtorWithVis(RawVisibility),
    /// The least of these visibilities, which are those of its fields.
    ValueNsCtorWithMinVis(Seq<RawVisibility>),
}

/// What the expansion of a macro call is read as.
#[derive(Clone, Copy, PartialEq, Eq)]
pub enum ExpandTo {
    Items,
    Statements,
}

/// What an item is.
#[derive(Drop)]
pub enum ModItemKind {
    Mod {
        name: Name,
        visibility: RawVisibility,
        contents: ModContents,
    },
    Use {
        visibility: RawVisibility,
        imports: Seq<UseImport>,
    },
    /// `extern crate NAME as ALIAS`; the name may be `self`.
    ExternCrate {
        name: Name,
        visibility: RawVisibility,
        alias: Option<ImportAlias>,
    },
    ExternBlock {
        children: Seq<ModItemId>,
    },
    /// `PATH!(..)`. `ctxt` is the context of its path.
    MacroCall {
        path: ModPath,
        expand_to: ExpandTo,
        ctxt: SyntaxContext,
    },
    /// `macro_rules! NAME { .. }`.
    MacroRules {
        name: Name,
    },
    /// `macro NAME { .. }`.
    Macro2 {
        name: Name,
        visibility: RawVisibility,
    },
    Impl {
        is_trait_impl: bool,
    },
    Struct {
        name: Name,
        visibility: RawVisibility,
        ctor: CtorVisibility,
    },
    Union {
        name: Name,
        visibility: RawVisibility,
    },
    Enum {
        name: Name,
        visibility: RawVisibility,
    },
    Function {
        name: Name,
        visibility: RawVisibility,
    },
    /// A constant; without a name it is written `const _`.
    Const {
        name: Option<Name>,
        visibility: RawVisibility,
    },
    Static {
        name: Name,
        visibility: RawVisibility,
    },
    Trait {
        name: Name,
        visibility: RawVisibility,
    },
    TypeAlias {
        name: Name,
        visibility: RawVisibility,
    },
}

/// An item of a tree. `ast_id` is its number in its file.
#[derive(Drop)]
pub struct ItemNode {
    pub ast_id: FileAstId,
    pub attrs: Option<AttrsOrCfg>,
    pub kind: ModItemKind,
}

impl ItemNode {
    /// The items in this one.
    pub fn children(&self) -> &[ModItemId]
        ensures { result.now ≡ children_of self.now }
    {
        match &self.kind {
            ModItemKind::Mod {
                contents: ModContents::Inline(children),
                ..
            } => children.as_slice(),
            ModItemKind::ExternBlock { children } => children.as_slice(),
            _ => &[],
        }
    }

    /// The condition that is not met, where the item is not compiled.
    pub fn disabled_by(&self) -> Option<CfgExpr>
        ensures { result ≡ disabled_by self.now.attrs }
    {
        match &self.attrs {
            Some(attrs) => attrs.disabled_by(),
            None => None,
        }
    }

    /// The attributes of the item whose path is this name alone.
    pub fn by_key(&self, key: Name) -> AttrQuery<'_>
        ensures { result ≡ by_key key (attrs_of self.now.attrs) }
    {
        match &self.attrs {
            Some(attrs) => attrs.attrs().by_key(key),
            None => AttrQuery::none(key),
        }
    }

    /// The text of the item's `#[path]`, if it has one.
    pub fn path_attr(&self) -> Option<&str>
        ensures { option_map (λ t. t.now) result ≡ path_attr self.now.attrs }
    {
        match &self.attrs {
            Some(attrs) => attrs.attrs().by_key(sym::PATH).string_value(),
            None => None,
        }
    }
}
