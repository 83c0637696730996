//! Collecting a crate, and what is done with its maps.

ghost use Rattle.std.specs.Prelude.{◌≡◌, IfOk};
ghost use Rattle.def_interner.specs.Session.{AddsLocations, session_of};
ghost use Rattle.def_rules.specs.Headline.{Answers};
ghost use Rattle.def_collector.specs.Answer.{shown};
ghost use Rattle.uses.specs.Setting.{file_tree, setting};

use hir_def::{
    Collected, Crate, Database, DefMap, Edition, FileId, HirFileId, Interner, SourceDatabase,
    TreeId, collect_defs,
};
use std::alloc::{AllocError, Global};

/// The tree of a whole file.
pub fn tree_of_file(file: FileId) -> TreeId
    ensures { result ≡ file_tree file }
{
    TreeId {
        file: HirFileId::File(file),
        block: None,
    }
}

/// Collects a crate of edition 2021, from its root file on. Any oracle will do.
pub fn collect_crate<D: SourceDatabase>(
    alloc: Global,
    db: &D,
    session: &mut Interner,
    krate: Crate,
    root_file: FileId,
) -> Result<Collected, AllocError>
    // What is answered ends a run over the crate.
    ensures answers { IfOk result (λ collected.
        Answers (setting (D.oracle db.now) krate root_file)
        (session_of session.old) (session_of session.new) (shown collected)) }

    // The session keeps what it had.
    ensures session { AddsLocations (session_of session.old) (session_of session.new) }
{
    let seeded = DefMap::seed(alloc, krate, Edition::Edition2021, None)?;
    collect_defs(alloc, db, session, seeded, tree_of_file(root_file), None)
}

/// Collects a crate, and hands its finished maps to the crates that depend on it, and to its blocks.
pub fn collect_first(
    alloc: Global,
    db: &mut Database,
    session: &mut Interner,
    krate: Crate,
    root_file: FileId,
) -> Result<(), AllocError> {
    let Collected {
        def_map,
        local_def_map,
        outcome: _,
        diagnostics: _,
    } = collect_crate(alloc, db, session, krate, root_file)?;
    db.add_map(krate, def_map, local_def_map)
}
