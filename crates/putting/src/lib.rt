// Bytes put into a file, which is made as long as they need.
#![tactic(auto)]

pub mod longer;
pub mod put;
