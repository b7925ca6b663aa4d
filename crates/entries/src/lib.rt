// What stands in a slot: entry at a slot.
#![tactic(auto)]

pub mod entry;

// The fields of a directory entry, as stored.
#[derive(Clone, Copy)]
pub struct EntryFields {
    pub name: [u8; 11],
    pub attr: u8,
    pub time: u16,
    pub date: u16,
    pub start: u16,
    pub size: u32,
}
