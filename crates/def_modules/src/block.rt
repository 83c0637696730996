//! What the map of a block takes over of its crate's.
ghost use Rattle.std.specs.Prelude.{◌≡◌, false, true, Some, IsTrue, IfOk, MatchOption};
ghost use Rattle.std.specs.Option.{option_map_or};
ghost use Rattle.def_bindings.specs.Tree.{are_apart};

use crate::def_map_crate_data::DefMapCrateData;
use crate::map::MapData;
use def_bindings::ModuleTree;
use def_ids::{MapId, ModuleId};
use std::alloc::{AllocError, Global};
use tree_ids::{BlockId, Crate, Seq};

/// A block, the modules that contain it, and what its map takes over of its crate's map.
#[derive(Drop)]
pub struct BlockData {
    pub krate: Crate,
    pub block: BlockId,
    /// The innermost first.
    pub containing: Seq<ModuleId>,
    pub data: DefMapCrateData,
    ghost apart: { IsTrue (are_apart (record { krate = krate; block = Some block }) containing) },
}

impl BlockData {
    ghost use Rattle.def_modules.specs.Seeds.{block_map_id, block_state};
    ghost use Rattle.def_modules.specs.Fresh.{fresh_state, block_crate};
    ghost use Rattle.def_modules.specs.Maps.{map_state};
    ghost use Rattle.def_ids.specs.declared.edition.Edition.{Edition};

    /// A block of a map's crate, within these modules, the innermost first. None where two of them
    /// are equal or one is of the block's own map.
    pub fn new(
        alloc: Global,
        block: BlockId,
        containing: Vec<ModuleId>,
        from: &MapData,
    ) -> Result<Option<BlockData>, AllocError>
        ensures { IfOk result (λ made. MatchOption made
            (are_apart (block_map_id (map_state from.now) block) containing.items ≡ false)
            (λ info. (edition : Edition) → block_state edition info
            ≡ fresh_state (block_map_id (map_state from.now) block) containing.items (block_crate edition (map_state from.now).krate))) }
    {
        let krate = from.tree.map.krate;
        let map = MapId {
            krate,
            block: Some(block),
        };
        match ModuleTree::new(alloc, map, Seq::from_vec(containing))? {
            None => Ok(None),
            Some(tree) => match BlockData::within(tree, block, from) {
                Ok(info) => Ok(Some(info)),
                Err(refused) => Err(refused),
            },
        }
    }

    /// The block of a tree's root, with what it takes over.
    fn within(tree: ModuleTree, block: BlockId, from: &MapData) -> Result<BlockData, AllocError>
        requires { tree.map ≡ record { krate = from.now.tree.map.krate; block = Some block } }
        ensures { IfOk result (λ info. (edition : Edition) → block_state edition info
            ≡ fresh_state (block_map_id (map_state from.now) block) tree.containing (block_crate edition (map_state from.now).krate)) }
    {
        let data = from.krate.copied()?;
        let ModuleTree {
            map,
            parents: _,
            containing,
        } = tree;
        Ok(BlockData {
            krate: map.krate,
            block,
            containing,
            data,
        })
    }
}
