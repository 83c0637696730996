//! How the library is used, by examples that are tests: a database is filled, a crate of two files
//! is collected, a dependency and then its user, a block, crates whose macros are called by an item,
//! an attribute and a derive, and one with a trait whose items are asked for; and what was collected
//! is read. Beside them stand tests of what no contract says and no row can: token trees, item
//! trees, tables, globs and maps at work, and what readers of maps answer, as text.
#![tactic(auto)]

#[cfg(test)]
mod examples;
#[cfg(test)]
mod layers;
#[cfg(test)]
mod readers;
