//! Where items stand.
ghost use Rattle.std.specs.Prelude.{◌≡◌};
ghost use Rattle.def_parts.specs.Sites.{site_of};
ghost use Rattle.def_rules.specs.Items.{position_of};

use crate::mod_resolution::ModDir;
use def_ids::{ItemContainerId, ModuleId};
use item_tree::{FileAstId, InFile, ItemNode, TreeId};

/// Where items stand.
#[derive(Drop)]
pub struct Site {
    pub module_id: ModuleId,
    /// The module, or an extern block in it.
    pub container: ItemContainerId,
    /// The tree that holds them.
    pub tree_id: TreeId,
    /// How deep in expansions of macros they lie.
    pub depth: u32,
    /// Where the files of the module's children lie.
    pub dir: ModDir,
}

impl Site {
    /// The position of one of its items.
    pub fn position(&self, node: &ItemNode) -> InFile<FileAstId>
        ensures { result ≡ position_of (site_of self.now) node.now }
    {
        InFile {
            file: self.tree_id.file,
            value: node.ast_id,
        }
    }
}
