// A new volume: format.
#![tactic(auto)]

pub mod format;
