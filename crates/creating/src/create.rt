// Create.
ghost use Rattle.std.specs.Prelude.{◌≡◌};
ghost use Rattle.diskette.specs.Places.{slot_at, root_entries};
ghost use Rattle.directory.specs.Search.{lowest_vacant};
ghost use Rattle.calls.specs.Aids.Ready.{OnVolume};
ghost use Rattle.sound.specs.Files.{IsFile};
ghost use Rattle.creating.specs.Create.{Creates};
ghost use Rattle.creating.specs.Aids.Create.{Empties, MakesNew};

use calls::refusal::Refusal;
use calls::{attribute, files, make_ready};
use diskette::Kind;
use freeing::freed;
use stamps::Stamp;

// The lowest slot that a new file may take.
fn slot_for_new(img: &[u8], k: Kind) -> Option<usize>
    requires { OnVolume img.now k }
    ensures { result ≡ lowest_vacant img.now (slot_at k) (root_entries k) }
{
    directory::lowest_vacant(img, k.root_at(), k.root_entries())
}

// Empties the file in the slot, where it is not open nor read-only and a place is unused.
fn empty_old(
    img: &mut [u8],
    k: Kind,
    t: &mut [u8],
    slot: usize,
    name: [u8; 11],
    attr: u8,
    time: u16,
    date: u16,
) -> Result<u32, Refusal>
    requires on_volume { OnVolume img.old k }
    requires file { IsFile k img.old slot }
    ensures { Empties img.old t.old k slot name attr time date result img.new t.new }
{
    if opened::is_open(t, slot) {
        return Err(Refusal::AccessDenied);
    }
    if files::is_read_only(img, k, slot) {
        return Err(Refusal::AccessDenied);
    }
    let place = opened::lowest_unused(t).ok_or(Refusal::TooManyOpen)?;
    opened::put_record(t, place, 2, slot as u32, 0);
    let a = k.slot_at(slot);
    freed::free_file(img, k, a);
    fields::write_entry(img, a, name, attr, time, date, 0, 0);
    Ok(place as u32)
}

// Makes a new file, where a slot is open and a place unused.
// (It ends as empty_old does; a function for both ends would take nine parameters.)
fn make_new(
    img: &mut [u8],
    k: Kind,
    t: &mut [u8],
    name: [u8; 11],
    attr: u8,
    time: u16,
    date: u16,
) -> Result<u32, Refusal>
    requires { OnVolume img.old k }
    ensures { MakesNew img.old t.old k name attr time date result img.new t.new }
{
    let slot = slot_for_new(img, k).ok_or(Refusal::AccessDenied)?;
    let place = opened::lowest_unused(t).ok_or(Refusal::TooManyOpen)?;
    fields::write_entry(img, k.slot_at(slot), name, attr, time, date, 0, 0);
    opened::put_record(t, place, 2, slot as u32, 0);
    Ok(place as u32)
}

// Creates a file on a volume that is ready.
fn create_on(
    img: &mut [u8],
    k: Kind,
    t: &mut [u8],
    s: &[u8],
    attr: u32,
    stamp: Stamp,
) -> Result<u32, Refusal>
    requires { OnVolume img.old k }
    ensures { Creates img.old t.old s.now attr stamp result img.new t.new }
{
    let name = names::name_given(s).ok_or(Refusal::BreaksRules)?;
    let (time, date) = stamp.pack().ok_or(Refusal::OutOfRange)?;
    if attribute::is_bad_attr(attr) {
        return Err(Refusal::AccessDenied);
    }
    let attr = attr as u8;
    match files::file_named(img, k, name) {
        None => make_new(img, k, t, name, attr, time, date),
        Some(slot) => empty_old(img, k, t, slot, name, attr, time, date),
    }
}

pub fn create(
    img: &mut [u8],
    t: &mut [u8],
    s: &[u8],
    attr: u32,
    stamp: Stamp,
) -> Result<u32, Refusal>
    ensures { Creates img.old t.old s.now attr stamp result img.new t.new }
{
    let (k, _) = make_ready(img)?;
    create_on(img, k, t, s, attr, stamp)
}
