//! The modules of a map that is being made, what they hold, what is known of their crate, and what a
//! map begins with.
#![tactic(auto)]

mod block;
mod crate_writes;
mod def_map_crate_data;
mod fresh;
mod keyed_lists;
mod legacy_macros;
mod local_def_map;
mod map;
mod map_reads;
mod module_data;
mod module_writes;
mod seed;

pub use block::BlockData;
pub use def_map_crate_data::{DefMapCrateData, UnstableFeatures};
pub use fresh::is_fresh_data;
pub use local_def_map::{ExternPreludeEntry, LocalDefMap};
pub use map::{DeriveHelper, HelpersRange, MapData};
pub use module_data::{
    DeriveCall, DeriveKey, DeriveMacroInvocation, DeriveRecords, Invocation, ModuleData,
    ModuleOrigin, Position, RareParts, ScopeData,
};
pub use seed::{block_data, crate_data};
