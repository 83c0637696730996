//! What is read of the paths of files and of attributes: the definitions that rules and readers
//! share, and no code.
#![tactic(auto)]
