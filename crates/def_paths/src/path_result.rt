//! What a path means.

use def_bindings::Namespace;
use def_sources::{Item, PerNs};

/// Whether the beginning of a path, and each prefix that a later segment needs, was there.
#[derive(Clone, Copy, PartialEq, Eq, Debug)]
pub enum ReachedFixedPoint {
    Yes,
    No,
}

/// What was seen on the way to a path's last segment.
#[derive(Clone, Copy, PartialEq, Eq, Debug)]
pub struct PrefixInfo {
    /// Whether a segment was looked up in a module of another crate.
    pub differing_crate: bool,
}

/// What a path means.
#[derive(Clone, Copy, PartialEq, Eq, Debug)]
pub struct ResolvePathResult {
    pub resolved_def: PerNs,
    /// The first segment that is left where the path ends at a definition without names.
    pub segment_index: Option<usize>,
    pub reached_fixedpoint: ReachedFixedPoint,
    pub prefix_info: PrefixInfo,
}

/// What a path means, in short where it can be: most paths lead through modules of their crate to one
/// item in one namespace, and then nothing else is kept.
#[derive(Clone, Copy)]
pub enum PathAnswer<'a> {
    Lone(Namespace, &'a Item),
    Whole(&'a ResolvePathResult),
}
