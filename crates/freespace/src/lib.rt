// The space that is left: free space.
#![tactic(auto)]

pub mod free_space;

// What free space answers: the free clusters, all clusters, a sector's bytes and the sectors per cluster.
#[derive(Clone, Copy)]
pub struct Space {
    pub free: usize,
    pub clusters: usize,
    pub sector: usize,
    pub per: usize,
}
