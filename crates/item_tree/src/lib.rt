//! Names, paths, attributes, token trees and items.
#![tactic(auto)]

mod attrs;
mod items;
mod mod_path;
mod name;
pub mod sym;
mod text_order;
mod tree;
mod tt;

pub use attrs::{Attr, AttrInput, AttrQuery, Attrs, AttrsAfter, AttrsOrCfg, TtValues};
pub use items::{
    CtorVisibility, ExpandTo, ImportAlias, ImportKind, ItemNode, ModContents, ModItemKind,
    RawVisibility, UseImport,
};
pub use mod_path::{ModPath, PathKind};
pub use name::{KNOWN_NAMES, NameTable};
pub use tree::{ItemTree, TreeFault};
pub use tree_ids::{
    AttrId, BlockId, CfgExpr, Crate, FileAstId, FileId, HirFileId, InFile, MacroCallId,
    MacroCallStyles, MacroRulesLocFlags, ModItemId, Name, Seq, SyntaxContext, Text, TreeId,
};
pub use tt::{Leaf, TopSubtree, TopSubtreeBuilder, TtElement, TtIter};
