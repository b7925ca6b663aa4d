// Findings 5 to 7: the files' chains, each walked and marked.
#![tactic(auto)]

pub mod files;
pub mod marks;

// How many files there are, and how many clusters they hold.
#[derive(Clone, Copy)]
pub struct Chains {
    pub files: usize,
    pub held: usize,
}

// The chain of a file is bad.
#[derive(Clone, Copy)]
pub struct BadChain;
