//! Collecting a crate in two files.

use crate::examples::collecting::collect_crate;
use crate::examples::oracle::{CRATE, ROOT_FILE};
use hir_def::{Collected, Interner, SourceDatabase};
use std::alloc::{AllocError, Global};

/// Collects the crate, of which the oracle knows. Its second file is found where `mod a;` is reached.
pub fn collect<D: SourceDatabase>(
    alloc: Global,
    session: &mut Interner,
    db: &D,
) -> Result<Collected, AllocError> {
    collect_crate(alloc, db, session, CRATE, ROOT_FILE)
}
