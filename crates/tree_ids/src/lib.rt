//! What item trees are named and numbered with: ids, names, lists, texts and sets of flags.
#![tactic(auto)]

mod ids;
mod list;
mod macro_flags;
mod name;
mod text;

pub use ids::{
    AttrId, BlockId, CfgExpr, Crate, FileAstId, FileId, HirFileId, InFile, MacroCallId, ModItemId,
    SyntaxContext, TreeId,
};
pub use list::Seq;
pub use macro_flags::{MacroCallStyles, MacroRulesLocFlags};
pub use name::Name;
pub use text::Text;
