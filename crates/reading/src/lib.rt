// Bytes taken out of files: read.
#![tactic(auto)]

pub mod read;
