// The open table as a row of records that the caller lends, beside its form as bytes (crate opened). Callers lend the one or the
// other: the functions of both have the same names, and each is a line or a few over what it goes over.
#![tactic(auto)]

ghost use Rattle.std.specs.Prelude.{◌≡◌};
ghost use Rattle.seeking.specs.Seek.{answer_of};
ghost use Rattle.seeking.specs.Aids.Seek.{number_of};
ghost use Rattle.records.specs.Seek.{base_from, seek_from, SeeksIn};
ghost use Rattle.records.specs.Row.{row_of, in_bytes, record_at, with_record_at, lowest_unused_in, is_open_in};

use calls::refusal::Refusal;
use records::OpenRecord;
use seeking::seek::Method;

// The record that a place of a table of bytes says; an unused one where the table has no such place.
pub fn from_bytes(t: &[u8], place: usize) -> OpenRecord
    ensures { result ≡ record_at (row_of t.now) place }
{
    if place < opened::place_count(t) {
        OpenRecord {
            used: opened::used_at(t, place),
            slot: opened::slot_at(t, place),
            access: opened::access_at(t, place),
            pointer: opened::pointer_at(t, place),
            written: opened::written_at(t, place),
        }
    } else {
        OpenRecord::default()
    }
}

// Stores a record at a place of a table of bytes; an unused one frees the place, and no such place leaves the table as it is.
pub fn to_bytes(t: &mut [u8], place: usize, held: OpenRecord)
    ensures { t.new ≡ in_bytes t.old place held }
{
    if place < opened::place_count(t) {
        if held.used {
            opened::put_record(t, place, held.access, held.slot, held.pointer);
            if held.written {
                opened::put_written(t, place);
            }
        } else {
            opened::clear(t, place);
        }
    }
}

// The record at a place; an unused one where the row has no such place among its first 16.
pub fn record_at(row: &[OpenRecord], place: usize) -> OpenRecord
    ensures { result ≡ record_at row.now place }
{
    if place < 16 {
        row.get(place).copied().unwrap_or_default()
    } else {
        OpenRecord::default()
    }
}

// Stores a record at a place among the first 16; the row stays as it is where it has no such place.
#[tactic(auto, unfolding(records::specs::Row::with_record_at))]
pub fn put_record(row: &mut [OpenRecord], place: usize, held: OpenRecord)
    ensures { row.new ≡ with_record_at row.old place held }
{
    if place < 16 && place < row.len() {
        row[place] = held;
    }
}

// The lowest unused place among the first 16.
pub fn lowest_unused(row: &[OpenRecord]) -> Option<usize>
    ensures { result ≡ lowest_unused_in row.now }
{
    row.iter().take(16).position(|held| !held.used)
}

// Whether a file in the slot would be open: some used place among the first 16 names it, whatever its access.
pub fn is_open(row: &[OpenRecord], slot: u32) -> bool
    ensures { result ≡ is_open_in row.now slot }
{
    row.iter()
        .take(16)
        .any(|held| held.used && held.slot == slot)
}

// From where the offset counts: from 0, the pointer or the size.
fn base_of(pointer: u32, size: u32, method: Method) -> u32
    ensures { result ≡ base_from pointer size (number_of method) }
{
    match method {
        Method::Start => 0,
        Method::Pointer => pointer,
        Method::Size => size,
    }
}

// What a seek from this pointer answers, in a file of this size.
fn sought(pointer: u32, size: u32, method: u32, offset: i32) -> Result<u32, Refusal>
    ensures { result ≡ answer_of (seek_from pointer size method offset) }
{
    let base = base_of(pointer, size, Method::try_from(method)?);
    offset::moved_by(base, offset).ok_or(Refusal::InvalidFunction)
}

// Moves the pointer of one open record, of a file of this size, and nothing else; a refusal leaves the record as it came.
pub fn seek(lent: &mut OpenRecord, size: u32, method: u32, offset: i32) -> Result<u32, Refusal>
    ensures { SeeksIn lent.old size method offset result lent.new }
{
    let pointer = sought(lent.pointer, size, method, offset)?;
    lent.pointer = pointer;
    Ok(pointer)
}
