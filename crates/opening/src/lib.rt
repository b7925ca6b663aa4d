// Files opened: open.
#![tactic(auto)]

pub mod open;
