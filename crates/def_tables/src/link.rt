//! Glob edges without their ends.

use def_ids::GlobId;

/// The visibility and the glob of an edge.
#[derive(Clone, Copy)]
pub struct Link<V> {
    pub vis: V,
    pub glob: GlobId,
}
