//! What the map of a block begins with.
ghost use Rattle.std.specs.Prelude.{◌≡◌, false, IfOk, MatchOption};
ghost use Rattle.def_bindings.specs.Tree.{are_apart};
ghost use Rattle.def_ids.specs.declared.edition.Edition.{Edition};
ghost use Rattle.def_map.specs.DefMaps.{state_of, info_state};
ghost use Rattle.def_modules.specs.Fresh.{fresh_state, block_crate};
ghost use Rattle.def_modules.specs.Seeds.{block_map_id};

use crate::def_map::DefMap;
use def_ids::ModuleId;
use def_modules::BlockData;
use item_tree::BlockId;
use std::alloc::{AllocError, Global};

/// A block, the modules that contain it, and what its map takes over of its crate's map.
#[derive(Drop)]
pub struct BlockInfo {
    pub(crate) data: BlockData,
}

impl BlockInfo {
    /// A block of a map's crate, within these modules, the innermost first. None where two of them
    /// are equal or one is of the block's own map.
    pub fn new(
        alloc: Global,
        block: BlockId,
        containing: Vec<ModuleId>,
        crate_map: &DefMap,
    ) -> Result<Option<BlockInfo>, AllocError>
        ensures { IfOk result (λ made. MatchOption made
            (are_apart (block_map_id (state_of crate_map.now) block) containing.items ≡ false)
            (λ info. (edition : Edition) → info_state edition info
            ≡ fresh_state (block_map_id (state_of crate_map.now) block) containing.items (block_crate edition (state_of crate_map.now).krate))) }
    {
        match BlockData::new(alloc, block, containing, &crate_map.data)? {
            Some(data) => Ok(Some(BlockInfo { data })),
            None => Ok(None),
        }
    }
}
