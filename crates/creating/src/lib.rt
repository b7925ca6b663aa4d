// Files made: create.
#![tactic(auto)]

pub mod create;
