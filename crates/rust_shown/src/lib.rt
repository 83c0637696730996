//! What is printed of a workspace: reports with the lines that they speak of, maps by names, what a
//! path means, and modules and globs as a graph.
#![tactic(auto)]

mod check;
mod described;
mod graph;
mod json;
mod lines;
mod map;
mod meanings;
mod modules;

pub use check::{Form, write_checked};
pub use graph::write_graph;
pub use map::{write_map, write_map_json};
pub use meanings::{write_meanings, write_meanings_json};
