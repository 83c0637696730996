//! Lines and columns of source texts, and lines that are shown with carets below what they are shown
//! for.
#![tactic(auto)]

mod characters;
mod excerpt;
mod lines;
#[cfg(test)]
mod tests;

pub use characters::shown;
pub use excerpt::write_excerpt;
pub use lines::{LineColumn, Lines};
