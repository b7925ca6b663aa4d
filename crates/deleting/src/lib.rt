// Files ended: delete.
#![tactic(auto)]

pub mod delete;
