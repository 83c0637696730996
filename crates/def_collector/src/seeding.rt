//! What is known of a crate before its items: what its root file says, and the crates that it
//! depends on.
ghost use Rattle.std.specs.Prelude.{◌≡◌, OnOk};
ghost use Rattle.def_interner.specs.declared.interner.Interner.{Interner};
ghost use Rattle.def_collector.specs.Collector.{state_of};
ghost use Rattle.def_rules.specs.Start.{block_head, crate_head, first_head, head_of, with_attrs, with_deps, with_head};

use crate::collector::DefCollector;
use crate::prelude::inject_prelude;
use def_crates::{is_proc_macro_with, read_root_file};
use def_interner::Interner;
use def_map::SourceDatabase;
use item_tree::{Attr, CfgExpr};
use std::alloc::AllocError;

/// Learns what is known before the first item: of a crate by the attributes of its root file
/// and its dependencies, and then its prelude, or that of a block. On `Err` nothing but safety
/// is promised.
pub fn seed<'a, D: SourceDatabase>(
    collector: &mut DefCollector<'a>,
    db: &D,
    session: &Interner,
    attrs: &[Attr],
    disabled: Option<CfgExpr>,
) -> Result<(), AllocError>
    ensures { OnOk result (let s = state_of collector.old session.now in
        state_of collector.new session.now ≡ with_head s (first_head (D.oracle db.now) attrs.now disabled s)) }
{
    let in_block = collector.def_map.tree.map.block.is_some();
    if in_block {
        seed_block(collector, db, session, disabled)?;
        return Ok(());
    }
    seed_crate(collector, db, session, attrs)?;
    Ok(())
}

/// What is known of a block: its crate's data, and the prelude unless cfg disables the block.
fn seed_block<'a, D: SourceDatabase>(
    collector: &mut DefCollector<'a>,
    db: &D,
    session: &Interner,
    disabled: Option<CfgExpr>,
) -> Result<(), AllocError>
    ensures { OnOk result (let s = state_of collector.old session.now in
        state_of collector.new session.now ≡ with_head s (block_head (D.oracle db.now) disabled s)) }
{
    match disabled {
        Some(_) => Ok(()),
        None => {
            inject_prelude(collector, db, session)?;
            Ok(())
        }
    }
}

/// What is known of a crate.
fn seed_crate<'a, D: SourceDatabase>(
    collector: &mut DefCollector<'a>,
    db: &D,
    session: &Interner,
    attrs: &[Attr],
) -> Result<(), AllocError>
    ensures { OnOk result (let s = state_of collector.old session.now in
        state_of collector.new session.now ≡ with_head s (crate_head (D.oracle db.now) attrs.now s)) }
{
    read_root(collector, db, attrs)?;
    inject_prelude(collector, db, session)?;
    Ok(())
}

/// Reads the attributes of the crate's root file, and names the crates that the crate depends on.
fn read_root<'a, D: SourceDatabase>(
    collector: &mut DefCollector<'a>,
    db: &D,
    attrs: &[Attr],
) -> Result<(), AllocError>
    ensures { OnOk result ((session : Interner) →
        let s = state_of collector.old session in
        state_of collector.new session ≡ with_head s (with_deps (D.oracle db.now) s (with_attrs attrs.now (head_of s)))) }
{
    collector.is_proc_macro = is_proc_macro_with(collector.is_proc_macro, attrs);
    let id = collector.def_map.tree.map.krate;
    let local = &mut collector.local_def_map;
    read_root_file(&mut collector.def_map.krate, local, db, id, attrs)?;
    Ok(())
}
