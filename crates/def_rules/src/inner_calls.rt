//! Calls that macros made for their arguments.

use def_ids::ModuleId;
use item_tree::{FileAstId, InFile, MacroCallId};

/// A call that was made for the arguments of one that waited, until it is recorded in the module of
/// that one.
#[derive(Clone, Copy, Drop)]
pub struct InnerCall {
    pub module_id: ModuleId,
    pub position: InFile<FileAstId>,
    pub call: MacroCallId,
}
