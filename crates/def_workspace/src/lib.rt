//! Scripted workspaces at work: how their crates are collected, the lines in which what was collected
//! is printed, and the commands of the program that prints them.
#![tactic(auto)]

mod assoc;
mod collecting;
mod command;
mod fault;
mod lines;
mod page;
mod words;
mod workspace;

pub use assoc::print_items;
pub use collecting::collect;
pub use command::{run, run_args};
pub use def_collector::Collected;
pub use def_scripted::{Fixture, FixtureFault, Part, ProgramText, find, read_row, rows_in};
pub use fault::Fault;
pub use lines::print;
pub use workspace::Workspace;
