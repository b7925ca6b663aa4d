// Finding 4: the slots of a directory. A directory stands at byte root and has count slots.
#![tactic(auto)]

ghost use Rattle.std.specs.Prelude.{not, ◌&&◌, ◌||◌, ◌≡◌, ◌+◌, ◌*◌, ◌≤◌, length};
ghost use Rattle.diskette.specs.Places.{slot_from};
ghost use Rattle.fields.specs.Fields.{name_of};
ghost use Rattle.slotcheck.specs.Aids.Slots.{never_used_slot, label_slot, strange, strange_slot, bad_slot_at};
ghost use Rattle.search.specs.Search.{lowest};
ghost use Rattle.slotcheck.specs.Aids.Checksums.{with_byte, checksum, NamesMet, NameTold, SlotTold};

use directory::Standing;

// A first byte 2E, or an attribute with bit 10, 40 or 80.
#[tactic(auto, unfolding(crate::specs::Aids::Slots::strange))]
fn is_strange(first: u8, attr: u8) -> bool
    ensures { result ≡ strange first attr }
{
    first == 0x2E
        || directory::has_bit(attr, 0x10)
        || directory::has_bit(attr, 0x40)
        || directory::has_bit(attr, 0x80)
}

#[tactic(auto, unfolding(crate::specs::Aids::Slots::never_used_slot))]
fn is_never_used(img: &[u8], root: usize, s: usize) -> bool
    requires { root + 32 * s + 32 ≤ length img.now }
    ensures { result ≡ never_used_slot img.now (slot_from root) s }
{
    img[root + 32 * s] == 0x00
}

#[tactic(auto, unfolding(crate::specs::Aids::Slots::label_slot))]
fn is_label(img: &[u8], root: usize, s: usize) -> bool
    requires { root + 32 * s + 32 ≤ length img.now }
    ensures { result ≡ label_slot img.now (slot_from root) s }
{
    matches!(directory::standing_at(img, root + 32 * s), Standing::Label)
}

// A live entry whose first byte or attribute is strange.
#[tactic(auto, unfolding(crate::specs::Aids::Slots::strange_slot))]
fn is_strange_slot(img: &[u8], root: usize, s: usize) -> bool
    requires { root + 32 * s + 32 ≤ length img.now }
    ensures { result ≡ strange_slot img.now (slot_from root) s }
{
    let a = root + 32 * s;
    let live = matches!(
        directory::standing_at(img, a),
        Standing::Label | Standing::Plain
    );
    live && is_strange(img[a], fields::attr_at(img, a))
}

// A checksum with one more byte. Each byte weighs 11 times the next, so that no two numbers of two digits have the same.
fn with_byte(sum: u8, byte: u8) -> u8
    ensures { result ≡ with_byte sum byte }
{
    sum.wrapping_mul(11).wrapping_add(byte)
}

// The checksum of the name of the entry at byte a.
#[tactic(auto, unfolding(crate::specs::Aids::Checksums::checksum))]
fn checksum_at(img: &[u8], a: usize) -> u8
    requires { a + 32 ≤ length img.now }
    ensures { result ≡ checksum (name_of img.now a) }
{
    img[a..a + 11]
        .iter()
        .fold(0, |sum, byte| with_byte(sum, *byte))
}

// A plain file whose name one in a lower slot has; none has it where the mark of its checksum is not set. Sets that mark.
fn is_name_twice(img: &[u8], met: &mut [bool], root: usize, s: usize) -> bool
    requires s_in_bounds { root + 32 * s + 32 ≤ length img.now }
    requires names_met { NamesMet img.now (slot_from root) s met.old }
    ensures { NameTold img.now (slot_from root) s result met.new }
{
    let a = root + 32 * s;
    if !directory::plain_at(img, a) {
        return false;
    }
    let sum = checksum_at(img, a) as usize;
    if !met[sum] {
        met[sum] = true;
        return false;
    }
    directory::slot_named(img, root, s, fields::name_at(img, a)).is_some()
}

// Whether slot s is bad whatever its name is; never and label say what was met in lower slots.
fn is_bad_entry(img: &[u8], root: usize, s: usize, never: bool, label: bool) -> bool
    requires { root + 32 * s + 32 ≤ length img.now }
    ensures { let l = img.now in let way = slot_from root in
        result ≡ ((not (never_used_slot l way s) && never) || (strange_slot l way s || (label_slot l way s && label))) }
{
    (!is_never_used(img, root, s) && never)
        || is_strange_slot(img, root, s)
        || (is_label(img, root, s) && label)
}

// Whether slot s is bad, by its name too: met has the marks of the names in lower slots.
fn is_bad(img: &[u8], met: &mut [bool], root: usize, s: usize, never: bool, label: bool) -> bool
    requires s_in_bounds { root + 32 * s + 32 ≤ length img.now }
    requires names_met { NamesMet img.now (slot_from root) s met.old }
    ensures { SlotTold img.now (slot_from root) s never label result met.new }
{
    is_bad_entry(img, root, s, never, label) || is_name_twice(img, met, root, s)
}

// The lowest bad slot, with a buffer for the marks of names.
fn first_bad_by(img: &[u8], met: &mut [bool], root: usize, count: usize) -> Option<usize>
    requires count_in_bounds { root + 32 * count ≤ length img.now }
    requires names_met { NamesMet img.now (slot_from root) 0 met.old }
    ensures { result ≡ lowest (bad_slot_at img.now (slot_from root)) 0 count }
{
    let mut never = false;
    let mut label = false;
    for s in 0..count {
        if is_bad(img, met, root, s, never, label) {
            return Some(s);
        }
        never |= is_never_used(img, root, s);
        label |= is_label(img, root, s);
    }
    None
}

// The lowest bad slot.
pub fn first_bad(img: &[u8], root: usize, count: usize) -> Option<usize>
    requires { root + 32 * count ≤ length img.now }
    ensures { result ≡ lowest (bad_slot_at img.now (slot_from root)) 0 count }
{
    let mut met = [false; 256];
    first_bad_by(img, &mut met, root, count)
}
