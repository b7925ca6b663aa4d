// A file read off a volume that need not be sound: rescue.
#![tactic(auto)]

pub mod rescue;
