// A file's attribute told and changed: file mode.
#![tactic(auto)]

pub mod mode;
