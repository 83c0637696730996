//! What imports give and globs bring, how that is put into a map and its table, and which imports
//! wake where a name changes. What a visibility means, and which module is the prelude, are asked of the
//! same world.
#![tactic(auto)]

mod coming;
mod globs;
mod imports;
mod prelude;
mod reads;
mod room;
mod turns;
mod visibility;
mod waking;
mod watchers;

pub use coming::Turns;
pub use globs::{glob_entries, put_glob};
pub use imports::{Glance, glance_at, record_named, resolve_import};
pub use prelude::prelude_module;
pub use room::Room;
pub use visibility::visibility_in;
pub use waking::Waking;
pub use watchers::Watchers;
