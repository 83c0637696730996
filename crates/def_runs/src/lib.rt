//! Runs of whole small crates, worked out by hand: what the rules say of each, and what they
//! exclude. It has no code.
#![tactic(auto)]
