// The calls on a single open record, taken out of its row as a value.
#![tactic(auto)]

pub mod held;
pub mod place;
