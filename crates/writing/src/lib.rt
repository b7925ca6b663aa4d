// Bytes put into files: write.
#![tactic(auto)]

pub mod write;
