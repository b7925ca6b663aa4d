// Walks along the chains. The clusters met are marked 1, and 2 where they are met again; for these left has the number of
// clusters to the chain's end, so that no walk goes on behind them.
#![tactic(auto)]

pub mod chain;
