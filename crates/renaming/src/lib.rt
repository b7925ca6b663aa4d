// A file's name changed: rename.
#![tactic(auto)]

pub mod rename;
