// The pointer of an open file moved: seek.
#![tactic(auto)]

pub mod seek;
