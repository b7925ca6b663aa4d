// The clusters of a file given back.
#![tactic(auto)]

pub mod freed;
