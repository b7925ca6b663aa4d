// Bytes of a file shown where they lie: view.
#![tactic(auto)]

pub mod view;
