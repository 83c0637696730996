//! What is collected of a row: its crates, each over those before it, or a block of the last one.

use crate::fault::Fault;
use crate::workspace::Workspace;
use def_collector::{Collected, collect_defs};
use def_ids::ModuleId;
use def_map::{BlockInfo, DefMap};
use def_scripted::{BlockText, CrateText, Fixture, Unknown};
use item_tree::{BlockId, Crate, FileId, HirFileId, TreeId};
use std::alloc::AllocError;

/// The block of a row.
const BLOCK: TreeId = TreeId {
    file: HirFileId::File(FileId(0)),
    block: Some(BlockId(0)),
};

/// Forgets what the oracle of a row does not know as the last crate is collected.
fn forget(workspace: &mut Workspace, unknown: &Unknown) {
    let db = &mut workspace.db;
    match unknown {
        Unknown::Files => db.files.trees.clear(),
        Unknown::Crates => db.crates.known.clear(),
        Unknown::Variants => db.types.variants.clear(),
        Unknown::Maps => db.crates.maps.clear(),
        Unknown::FinishedMaps | Unknown::LocalMaps | Unknown::Items => {}
    }
}

/// A block within modules of a crate, if they are fit.
fn block_info(
    workspace: &Workspace,
    krate: Crate,
    modules: &[u32],
) -> Result<Option<BlockInfo>, AllocError> {
    let Some(map) = workspace.db.crates.maps.get(&krate) else {
        return Ok(None);
    };
    let mut containing = Vec::new(workspace.alloc);
    for module in modules {
        containing.push(ModuleId {
            map: map.id(),
            index: *module as usize,
        })?;
    }
    BlockInfo::new(workspace.alloc, BlockId(0), containing, map)
}

/// Collects a block of a crate, whose maps are there.
fn collect_in(
    workspace: &mut Workspace,
    krate: &CrateText<'_>,
    info: BlockInfo,
) -> Result<Option<Collected>, AllocError> {
    let Workspace {
        alloc,
        session,
        db,
        ..
    } = workspace;
    let number = Crate(krate.krate);
    let seeded = DefMap::seed(*alloc, number, krate.edition, Some(info))?;
    match db.crates.local_maps.get(&number) {
        Some(local) => {
            let collected = collect_defs(*alloc, db, session, seeded, BLOCK, Some(local))?;
            Ok(Some(collected))
        }
        None => Ok(None),
    }
}

/// Collects a crate, and then a block of it, if this may stand in its modules.
fn collect_block(
    workspace: &mut Workspace,
    krate: &CrateText<'_>,
    block: &BlockText<'_>,
) -> Result<Option<Collected>, Fault> {
    workspace.collect_dependency(krate)?;
    workspace.add_text(BLOCK, block.items)?;
    workspace.db.add_depth(BLOCK.file, block.depth)?;
    match block_info(workspace, Crate(krate.krate), block.modules.as_slice())? {
        Some(info) => Ok(collect_in(workspace, krate, info)?),
        None => Ok(None),
    }
}

/// Collects crates, and hands their maps to those that depend on them.
fn collect_others(workspace: &mut Workspace, others: &[CrateText<'_>]) -> Result<(), AllocError> {
    for other in others {
        workspace.collect_dependency(other)?;
    }
    Ok(())
}

/// Collects the crates of a row, each over those before it. The last one, or its block, is answered;
/// `None` where no block may stand there.
pub fn collect(workspace: &mut Workspace, row: &Fixture<'_>) -> Result<Option<Collected>, Fault> {
    let Some((last, others)) = row.crates.as_slice().split_last() else {
        return Ok(None);
    };
    collect_others(workspace, others)?;
    for unknown in &row.unknown {
        forget(workspace, unknown);
    }
    match &row.block {
        Some(block) => collect_block(workspace, last, block),
        None => Ok(Some(workspace.collect(last)?)),
    }
}
