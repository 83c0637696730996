//! What follows of each run of the rules: what runs keep, and how they end; and what a path reads of a map in
//! work, whose answer stays while nothing of that changes. It has no code; the crates whose code is proved to
//! take such runs cite it.
#![tactic(auto)]
