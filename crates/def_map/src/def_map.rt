//! A map of definitions, whole: its data and its table.
ghost use Rattle.std.specs.Prelude.{◌≡◌, IfOk, IsTrue, ◌↔◌};
ghost use Rattle.def_bindings.specs.Content.{empty as none_bound};
ghost use Rattle.def_modules.specs.Maps.{map_state};
ghost use Rattle.def_sources.specs.Tables.{bound_by};
ghost use Rattle.def_map.specs.DefMaps.{state_of, content_of};
ghost use Rattle.def_modules.specs.Fresh.{IsFresh};

use crate::block::BlockInfo;
use def_ids::Edition;
use def_modules::{MapData, block_data, crate_data, is_fresh_data};
use def_paths::Table;
use item_tree::Crate;
use std::alloc::{AllocError, Global};

/// A map of the definitions of a crate, or of one of its blocks.
pub struct DefMap {
    pub(crate) data: MapData,
    pub(crate) table: Table,
}

impl Drop for DefMap {
    fn drop(self) {
        let DefMap { data: _, table: _ } = self;
    }
}

impl DefMap {
    ghost use Rattle.def_map.specs.DefMaps.{seeded, seeded_id};

    /// A map with one root and nothing in it. Without a block it is the map of the crate, with the
    /// tools that need no declaration. With one it is a block's, in the crate of the map that the
    /// block's data were taken from: `krate` is then not looked at, also where it is another crate.
    pub fn seed(
        alloc: Global,
        krate: Crate,
        edition: Edition,
        block: Option<BlockInfo>,
    ) -> Result<DefMap, AllocError>
        ensures id { IfOk result (λ map. (state_of map).id ≡ seeded_id krate block) }
        ensures state { IfOk result (λ map. state_of map ≡ seeded krate edition block) }
        ensures content { IfOk result (λ map. content_of map ≡ none_bound) }
        ensures fresh { IfOk result (λ map. IsFresh (state_of map) (content_of map)) }
    {
        match block {
            None => {
                let data = crate_data(alloc, krate, edition)?;
                let table = Table::of_map(alloc, data.tree.map)?;
                Ok(DefMap { data, table })
            }
            Some(BlockInfo { data: block }) => {
                let data = block_data(alloc, edition, block)?;
                let table = Table::of_map(alloc, data.tree.map)?;
                Ok(DefMap { data, table })
            }
        }
    }

    /// Whether the map is as `seed` leaves one: a root with nothing in it. The data that a block's
    /// map takes over of its crate's may be any.
    pub fn is_fresh(&self) -> bool
        ensures { IsTrue result ↔ IsFresh (state_of self.now) (content_of self.now) }
    {
        if !self.table.is_empty() {
            return false;
        }
        is_fresh_data(&self.data)
    }

    /// All but the bindings, and the table with these.
    pub fn into_parts(self) -> (MapData, Table)
        ensures state { map_state result.0 ≡ state_of self }
        ensures content { bound_by result.1 ≡ content_of self }
    {
        let DefMap { data, table } = self;
        (data, table)
    }

    /// A map of these parts.
    pub fn from_parts(data: MapData, table: Table) -> DefMap
        ensures state { state_of result ≡ map_state «data» }
        ensures content { content_of result ≡ bound_by table }
    {
        DefMap { data, table }
    }
}
