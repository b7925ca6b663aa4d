// What the listing prints, put on a page: texts, numbers, names and stamps.
#![tactic(auto)]

pub mod digits;
pub mod name;
pub mod page;
pub mod stamp;
