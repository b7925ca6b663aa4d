// Files found by a pattern: find.
#![tactic(auto)]

pub mod find;
