//! Glob edges: what is bound in a module travels along them, in waves.
#![tactic(auto)]

mod globs;

pub use globs::Globs;
