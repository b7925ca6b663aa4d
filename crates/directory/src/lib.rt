// What an entry of a directory stands for, by the address a of its first byte, and slots found.
#![tactic(auto)]

ghost use Rattle.std.specs.Prelude.{◌≡◌, ◌+◌, ◌*◌, ◌≤◌, ◌<◌, length};
ghost use Rattle.diskette.specs.Places.{slot_from};
ghost use Rattle.fields.specs.Fields.{name_of};
ghost use Rattle.directory.specs.Slots.{has_bit, standing_by, standing_of, is_vacant, is_plain};
ghost use Rattle.directory.specs.Search.{same_from, is_named, lowest_vacant, slot_named};

#[derive(Clone, Copy)]
pub enum Standing {
    NeverUsed,
    Erased,
    Label,
    Plain,
}

impl Standing {
    fn is_vacant(self) -> bool
        ensures { result ≡ is_vacant self }
    {
        matches!(self, Standing::NeverUsed | Standing::Erased)
    }

    fn is_plain(self) -> bool
        ensures { result ≡ is_plain self }
    {
        matches!(self, Standing::Plain)
    }
}

// Whether v has the bit whose worth is b, a power of two.
pub fn has_bit(v: u8, b: u8) -> bool
    requires { 0 < b }
    ensures { result ≡ has_bit v b }
{
    v / b % 2 == 1
}

// What an entry stands for, by its first byte and its attribute.
#[tactic(auto, unfolding(crate::specs::Slots::standing_by))]
fn standing_by(first: u8, attr: u8) -> Standing
    ensures { result ≡ standing_by first attr }
{
    match first {
        0x00 => Standing::NeverUsed,
        0xE5 => Standing::Erased,
        _ if has_bit(attr, 0x08) => Standing::Label,
        _ => Standing::Plain,
    }
}

pub fn standing_at(img: &[u8], a: usize) -> Standing
    requires { a + 32 ≤ length img.now }
    ensures { result ≡ standing_of img.now a }
{
    standing_by(img[a], fields::attr_at(img, a))
}

// Whether a new file may take the slot.
pub fn vacant_at(img: &[u8], a: usize) -> bool
    requires { a + 32 ≤ length img.now }
    ensures { result ≡ is_vacant (standing_of img.now a) }
{
    standing_at(img, a).is_vacant()
}

// Whether the slot holds a plain file.
pub fn plain_at(img: &[u8], a: usize) -> bool
    requires { a + 32 ≤ length img.now }
    ensures { result ≡ is_plain (standing_of img.now a) }
{
    standing_at(img, a).is_plain()
}

// Whether the entry has that name, on all 11 bytes.
fn same_name(img: &[u8], a: usize, name: [u8; 11]) -> bool
    requires { a + 32 ≤ length img.now }
    ensures { result ≡ same_from (name_of img.now a) name 0 11 }
{
    img[a..a + 11] == name[..]
}

// Whether the entry is the plain file of that name.
pub fn named_at(img: &[u8], a: usize, name: [u8; 11]) -> bool
    requires { a + 32 ≤ length img.now }
    ensures { result ≡ is_named img.now a name }
{
    plain_at(img, a) && same_name(img, a, name)
}

// The lowest slot that is erased or never used.
pub fn lowest_vacant(img: &[u8], root: usize, count: usize) -> Option<usize>
    requires { root + 32 * count ≤ length img.now }
    ensures { result ≡ lowest_vacant img.now (slot_from root) count }
{
    (0..count).find(|&slot| vacant_at(img, root + 32 * slot))
}

// The slot of the plain file of that name.
pub fn slot_named(img: &[u8], root: usize, count: usize, name: [u8; 11]) -> Option<usize>
    requires { root + 32 * count ≤ length img.now }
    ensures { result ≡ slot_named img.now (slot_from root) count name }
{
    (0..count).find(|&slot| named_at(img, root + 32 * slot, name))
}
