// Files closed: close.
#![tactic(auto)]

pub mod close;
