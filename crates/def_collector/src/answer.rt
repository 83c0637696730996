//! All that a run answers.

use def_map::{DefMap, LocalDefMap};
use def_rules::{DefDiagnostics, Outcome};

/// What `collect_defs` answers: the map, the names of crates that its paths may begin with, how
/// the run ended, and its diagnostics in order.
#[derive(Drop)]
pub struct Collected {
    pub def_map: DefMap,
    pub local_def_map: LocalDefMap,
    pub outcome: Outcome,
    pub diagnostics: DefDiagnostics,
}
