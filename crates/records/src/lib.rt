// An open record as a value, beside its form as bytes (crate opened). Crate lent has the functions over it.
#![tactic(auto)]

#[derive(Clone, Copy, Default)]
pub struct OpenRecord {
    pub used: bool,
    pub slot: u32,
    pub access: u8,
    pub pointer: u32,
    pub written: bool,
}
