// Read.
ghost use Rattle.std.specs.Prelude.{◌-◌, ◌≤◌, ◌<◌, ◌≡◌, length};
ghost use Rattle.image.specs.Store.{stored, part};
ghost use Rattle.diskette.specs.Places.{slot_at};
ghost use Rattle.fields.specs.Fields.{size_of};
ghost use Rattle.holding.specs.Holding.{file_bytes};
ghost use Rattle.sound.specs.Files.{IsFile};
ghost use Rattle.reading.specs.Read.{read_count, Reads};
ghost use Rattle.calls.specs.Aids.Ready.{OnVolume};

use calls::refusal::Refusal;
use calls::{files, make_ready};
use diskette::Kind;

// How many bytes buffer and file allow.
fn count_of(room: usize, size: u32, pointer: u32) -> u32
    ensures { result ≡ read_count room size pointer }
{
    room.min(size.saturating_sub(pointer) as usize) as u32
}

// Copies n bytes of the file in the slot, from its byte pointer on, to the front of buf.
fn copy_out(img: &[u8], k: Kind, slot: usize, pointer: u32, buf: &mut [u8], n: u32)
    requires on_volume { OnVolume img.now k }
    requires file { IsFile k img.now slot }
    requires n_bound { n ≤ size_of img.now (slot_at k slot) - pointer }
    requires n_in_bounds { n ≤ length buf.old }
    ensures { buf.new ≡ stored buf.old 0 (part (file_bytes k img.now (slot_at k slot)) pointer n) }
{
    if n == 0 {
        return;
    }
    let base = 512 * k.first_data();
    let start = fields::start_at(img, k.slot_at(slot)) as usize;
    contents::fetch(
        img,
        base,
        k.cluster_bytes(),
        k.last_cluster(),
        start,
        pointer as usize,
        buf,
        n as usize,
    );
}

// Reads from a file of a volume that is ready.
fn read_on(img: &[u8], k: Kind, t: &mut [u8], handle: u32, buf: &mut [u8]) -> Result<u32, Refusal>
    requires { OnVolume img.now k }
    ensures { Reads img.now t.old handle buf.old result t.new buf.new }
{
    let slot = files::file_open(img, k, t, handle).ok_or(Refusal::InvalidHandle)?;
    let place = handle as usize;
    if opened::access_at(t, place) == 1 {
        return Err(Refusal::AccessDenied);
    }
    let pointer = opened::pointer_at(t, place);
    let n = count_of(buf.len(), fields::size_at(img, k.slot_at(slot)), pointer);
    copy_out(img, k, slot, pointer, buf, n);
    opened::put_pointer(t, place, pointer + n);
    Ok(n)
}

pub fn read(img: &[u8], t: &mut [u8], handle: u32, buf: &mut [u8]) -> Result<u32, Refusal>
    ensures { Reads img.now t.old handle buf.old result t.new buf.new }
{
    let (k, _) = make_ready(img)?;
    read_on(img, k, t, handle, buf)
}
