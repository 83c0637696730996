//! What no contract says of the layers below the collector, and no row can say: token trees, item
//! trees, tables, globs, directories and maps at work.

mod directories;
mod levels;
mod proc_macros;
mod shown_order;
mod tables;
mod token_trees;
mod trees;
