// Numbers as C hands them over: the one number that a call answers, and the six of a caller's stamp.
#![tactic(auto)]

pub mod answer;
pub mod stamp;
