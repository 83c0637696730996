//! Builtin derives that are not expanded.

use def_ids::{ItemContainerId, ModuleId};
use def_modules::HelpersRange;
use item_tree::{AttrId, MacroCallId};

/// A builtin derive that is not expanded, since its impls are known: its number, the number of its
/// attribute and its place in the list, its call, its helpers, and where its expansion would stand.
/// It is the `DeferredBuiltinDerive` of rust-analyzer's collector.
#[derive(Clone, Copy, Drop)]
pub struct DeferredDerive {
    /// The builtin derive, by the oracle's number.
    pub derive: u32,
    pub attr_id: AttrId,
    /// The place of the derive's path in the attribute's list.
    pub pos: usize,
    pub call: MacroCallId,
    /// Those of the item's helpers that it added.
    pub helpers: HelpersRange,
    pub module_id: ModuleId,
    pub container: ItemContainerId,
    /// How deep in expansions its own would lie.
    pub depth: u32,
}
