//! A block of a function's body: `use S as T;`, in a crate with `pub struct S;`.

use crate::examples::collecting::collect_first;
use crate::examples::items::{add_item, import_as, plain, struct_of};
use crate::examples::one_file::{CRATE, FILE, database};
use hir_def::{
    BlockId, BlockInfo, Collected, DefMap, Edition, HirFileId, Interner, ModuleId, SourceDatabase,
    TreeId, collect_defs,
};
use std::alloc::{AllocError, Global};

const BLOCK: BlockId = BlockId(0);

/// The items of the block.
const BLOCK_TREE: TreeId = TreeId {
    file: HirFileId::File(FILE),
    block: Some(BLOCK),
};

/// Collects the block, which stands in the root of its crate, over the finished maps of the crate.
/// None where these are missing, or the block stands in modules that do not fit.
fn collect_block<D: SourceDatabase>(
    alloc: Global,
    session: &mut Interner,
    db: &D,
) -> Result<Option<Collected>, AllocError> {
    let (Some(crate_map), Some(crate_local)) = (db.crate_def_map(CRATE), db.local_def_map(CRATE))
    else {
        return Ok(None);
    };
    let containing = vec![in alloc; ModuleId::crate_root(CRATE)]?;
    let Some(info) = BlockInfo::new(alloc, BLOCK, containing, crate_map)? else {
        return Ok(None);
    };
    let seeded = DefMap::seed(alloc, CRATE, Edition::Edition2021, Some(info))?;
    let collected = collect_defs(alloc, db, session, seeded, BLOCK_TREE, Some(crate_local))?;
    Ok(Some(collected))
}

/// Collects the crate and then its block, in one session.
pub fn collect(alloc: Global, session: &mut Interner) -> Result<Option<Collected>, AllocError> {
    let items = vec![in alloc; plain(struct_of(session, "S")?)]?;
    let mut db = database(alloc, items)?;
    let item = import_as(alloc, session, "S", "T")?;
    add_item(alloc, &mut db, BLOCK_TREE, item)?;
    collect_first(alloc, &mut db, session, CRATE, FILE)?;
    collect_block(alloc, session, &db)
}
