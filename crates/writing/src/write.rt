// Write.
ghost use Rattle.std.specs.Prelude.{◌+◌, ◌-◌, ◌*◌, ◌≤◌, ◌<◌, min, ◌≡◌};
ghost use Rattle.diskette.specs.Aids.Usable.{Usable};
ghost use Rattle.diskette.specs.Places.{cluster_bytes, clusters};
ghost use Rattle.opened.specs.Records.{place_count, with_pointer, with_written};
ghost use Rattle.sound.specs.Counts.{free_of};
ghost use Rattle.calls.specs.Aids.Ready.{OnVolume};
ghost use Rattle.holding.specs.Aids.Files.{FileAt};
ghost use Rattle.writing.specs.Write.{Writes};
ghost use Rattle.writing.specs.Aids.Write.{WritesAt};

use calls::refusal::Refusal;
use calls::{files, make_ready};
use diskette::Kind;

// The bytes for which a file with so many clusters of its own has room, where so many are free.
fn room_for(k: Kind, own: usize, free: usize) -> usize
    requires usable { Usable k }
    requires free_bound { own + free ≤ clusters k }
    ensures { result ≡ (own + free) * cluster_bytes k }
{
    (own + free) * k.cluster_bytes()
}

// How many of n bytes are written at the pointer.
fn count_of(room: usize, pointer: u32, n: usize) -> usize
    ensures { result ≡ min n (room - pointer) }
{
    n.min(room.saturating_sub(pointer as usize))
}

// The place after n bytes were written at its pointer.
fn move_on(t: &mut [u8], place: usize, pointer: u32, n: usize)
    requires place_bound { place < place_count t.old }
    requires n_bound { pointer + n < 4294967296 }
    ensures { t.new ≡ with_written (with_pointer t.old place (pointer + n)) place }
{
    opened::put_pointer(t, place, pointer + n as u32);
    opened::put_written(t, place);
}

// Writes at the pointer of the place into the file whose entry starts at byte a.
fn write_at(
    img: &mut [u8],
    k: Kind,
    free: usize,
    a: usize,
    t: &mut [u8],
    place: usize,
    bytes: &[u8],
) -> Result<u32, Refusal>
    requires on_volume { OnVolume img.old k }
    requires file_at { FileAt k img.old a }
    requires free_value { free ≡ free_of k img.old }
    requires place_bound { place < place_count t.old }
    ensures { WritesAt k img.old t.old a place bytes.now result img.new t.new }
{
    let pointer = opened::pointer_at(t, place);
    let own = holding::extent_at(img, k, a);
    let n = count_of(room_for(k, own.clusters, free), pointer, bytes.len());
    if n == 0 {
        return Ok(0);
    }
    putting::put::put_first(img, k, a, own, pointer, bytes, n);
    move_on(t, place, pointer, n);
    Ok(n as u32)
}

// Writes to a file of a volume that is ready, where so many clusters are free.
fn write_on(
    img: &mut [u8],
    k: Kind,
    free: usize,
    t: &mut [u8],
    handle: u32,
    bytes: &[u8],
) -> Result<u32, Refusal>
    requires on_volume { OnVolume img.old k }
    requires free_value { free ≡ free_of k img.old }
    ensures { Writes img.old t.old handle bytes.now result img.new t.new }
{
    let slot = files::file_open(img, k, t, handle).ok_or(Refusal::InvalidHandle)?;
    let place = handle as usize;
    if opened::access_at(t, place) == 0 {
        return Err(Refusal::AccessDenied);
    }
    write_at(img, k, free, k.slot_at(slot), t, place, bytes)
}

pub fn write(img: &mut [u8], t: &mut [u8], handle: u32, bytes: &[u8]) -> Result<u32, Refusal>
    ensures { Writes img.old t.old handle bytes.now result img.new t.new }
{
    let (k, free) = make_ready(img)?;
    write_on(img, k, free, t, handle, bytes)
}
