// The open table as bytes: records of 16 bytes, of which the first 16 count. The functions down to clear know where a field
// stands; those after them speak of fields and places.
#![tactic(auto)]

ghost use Rattle.std.specs.Prelude.{◌≡◌, false, ◌+◌, ◌*◌, ◌≤◌, ◌<◌, length};
ghost use Rattle.image.specs.Store.{stored};
ghost use Rattle.diskette.specs.Places.{slot_from};
ghost use Rattle.opened.specs.Records.{place_count, place_at, used_of, slot_of, access_of, pointer_of, written_of, with_record, with_pointer, with_written, cleared};
ghost use Rattle.opened.specs.Aids.Records.{mark_bytes, number_bytes};
ghost use Rattle.opened.specs.Places.{is_open, lowest_unused};
ghost use Rattle.opened.specs.Aids.Places.{live_slot, names_slot};

// How many places count: as many as fit the table's length, at most 16.
pub fn place_count(t: &[u8]) -> usize
    ensures { result ≡ place_count t.now }
{
    (t.len() / 16).min(16)
}

#[tactic(auto, unfolding(crate::specs::Records::used_of))]
pub fn used_at(t: &[u8], p: usize) -> bool
    requires { p < place_count t.now }
    ensures { result ≡ used_of t.now p }
{
    t[16 * p] != 0
}

#[tactic(auto, unfolding(crate::specs::Records::access_of))]
pub fn access_at(t: &[u8], p: usize) -> u8
    requires { p < place_count t.now }
    ensures { result ≡ access_of t.now p }
{
    t[16 * p + 1]
}

#[tactic(auto, unfolding(crate::specs::Records::written_of))]
pub fn written_at(t: &[u8], p: usize) -> bool
    requires { p < place_count t.now }
    ensures { result ≡ written_of t.now p }
{
    t[16 * p + 2] != 0
}

#[tactic(auto, unfolding(crate::specs::Records::slot_of))]
pub fn slot_at(t: &[u8], p: usize) -> u32
    requires { p < place_count t.now }
    ensures { result ≡ slot_of t.now p }
{
    image::get32(t, 16 * p + 4)
}

#[tactic(auto, unfolding(crate::specs::Records::pointer_of))]
pub fn pointer_at(t: &[u8], p: usize) -> u32
    requires { p < place_count t.now }
    ensures { result ≡ pointer_of t.now p }
{
    image::get32(t, 16 * p + 8)
}

// The first four bytes: used, access, not written, zero.
#[tactic(auto, unfolding(crate::specs::Aids::Records::mark_bytes))]
fn put_marks(t: &mut [u8], p: usize, access: u8)
    requires { p < place_count t.old }
    ensures { t.new ≡ stored t.old (place_at p) (mark_bytes access false) }
{
    image::copy_in(t, 16 * p, &[1, access, 0, 0]);
}

#[tactic(auto, unfolding(crate::specs::Records::with_pointer))]
pub fn put_pointer(t: &mut [u8], p: usize, pointer: u32)
    requires { p < place_count t.old }
    ensures { t.new ≡ with_pointer t.old p pointer }
{
    image::put32(t, 16 * p + 8, pointer);
}

// The other twelve: slot, pointer, zeros.
#[tactic(auto, using(crate::proofs::Laws::Stores::numbers_stored))]
fn put_numbers(t: &mut [u8], p: usize, slot: u32, pointer: u32)
    requires { p < place_count t.old }
    ensures { t.new ≡ stored t.old (place_at p + 4) (number_bytes slot pointer) }
{
    image::put32(t, 16 * p + 4, slot);
    put_pointer(t, p, pointer);
    image::put32(t, 16 * p + 12, 0);
}

// Takes the place: all 16 bytes are stored, not written yet.
#[tactic(auto, using(crate::proofs::Laws::Stores::record_stored))]
pub fn put_record(t: &mut [u8], p: usize, access: u8, slot: u32, pointer: u32)
    requires { p < place_count t.old }
    ensures { t.new ≡ with_record t.old p access slot pointer false }
{
    put_marks(t, p, access);
    put_numbers(t, p, slot, pointer);
}

#[tactic(auto, unfolding(crate::specs::Records::with_written, image::specs::Store::stored))]
pub fn put_written(t: &mut [u8], p: usize)
    requires { p < place_count t.old }
    ensures { t.new ≡ with_written t.old p }
{
    t[16 * p + 2] = 1;
}

// Frees the place: all 16 bytes become zero.
#[tactic(auto, unfolding(crate::specs::Records::cleared))]
pub fn clear(t: &mut [u8], p: usize)
    requires { p < place_count t.old }
    ensures { t.new ≡ cleared t.old p }
{
    image::fill(t, 16 * p, 16, 0);
}

// The lowest unused place.
pub fn lowest_unused(t: &[u8]) -> Option<usize>
    ensures { result ≡ lowest_unused t.now }
{
    (0..place_count(t)).find(|&place| !used_at(t, place))
}

// Whether place p is used and names the slot.
fn names_slot(t: &[u8], p: usize, slot: usize) -> bool
    requires { p < place_count t.now }
    ensures { result ≡ names_slot t.now slot p }
{
    used_at(t, p) && slot_at(t, p) as usize == slot
}

// Whether a file in the slot would be open: some used place names it, whatever its access.
pub fn is_open(t: &[u8], slot: usize) -> bool
    ensures { result ≡ is_open t.now slot }
{
    (0..place_count(t)).any(|place| names_slot(t, place, slot))
}

// The slot of the file that the handle reaches; nothing where the place is not live.
#[tactic(auto, unfolding(crate::specs::Aids::Places::live_slot, crate::specs::Places::is_live))]
pub fn live_slot(t: &[u8], handle: u32, img: &[u8], root: usize, count: usize) -> Option<usize>
    requires { root + 32 * count ≤ length img.now }
    ensures { result ≡ live_slot t.now handle img.now (slot_from root) count }
{
    let place = handle as usize;
    if place >= place_count(t) || !used_at(t, place) || access_at(t, place) > 2 {
        return None;
    }
    let slot = slot_at(t, place) as usize;
    (slot < count && directory::plain_at(img, root + 32 * slot)).then_some(slot)
}
