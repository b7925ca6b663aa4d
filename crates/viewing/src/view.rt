// View.
ghost use Rattle.std.specs.Prelude.{◌<◌, ◌≡◌};
ghost use Rattle.calls.specs.Aids.Ready.{OnVolume};
ghost use Rattle.sound.specs.Files.{IsFile};
ghost use Rattle.viewing.specs.View.{view_count, Views, ViewNumbers};
ghost use Rattle.viewing.specs.Aids.View.{Sees, SeesFile};

use calls::refusal::Refusal;
use calls::{files, make_ready};
use diskette::Kind;

// How many bytes there are from byte offset on to the end of its cluster or file.
fn bytes_from(cb: usize, size: u32, offset: u32) -> usize
    requires cb_nonzero { 0 < cb }
    requires offset_lt_size { offset < size }
    ensures { result ≡ view_count cb size offset }
{
    let left = (size - offset) as usize;
    let rest = cb - offset as usize % cb;
    rest.min(left)
}

// Where the bytes of the file in the slot lie, from its byte offset on, and how many they are.
fn see_file(img: &[u8], k: Kind, slot: usize, offset: u32) -> (usize, usize)
    requires on_volume { OnVolume img.now k }
    requires file { IsFile k img.now slot }
    ensures { SeesFile img.now k slot offset result }
{
    let a = k.slot_at(slot);
    let size = fields::size_at(img, a);
    if size <= offset {
        return (0, 0);
    }
    let base = 512 * k.first_data();
    let cb = k.cluster_bytes();
    let start = fields::start_at(img, a) as usize;
    let at = contents::place_of(img, base, cb, k.last_cluster(), start, offset as usize);
    (at, bytes_from(cb, size, offset))
}

// The same by the file's name, on a volume that is ready.
fn see_on(img: &[u8], k: Kind, s: &[u8], offset: u32) -> Result<(usize, usize), Refusal>
    requires { OnVolume img.now k }
    ensures { Sees img.now s.now offset result }
{
    let name = names::name_given(s).ok_or(Refusal::BreaksRules)?;
    let slot = files::file_named(img, k, name).ok_or(Refusal::FileNotFound)?;
    Ok(see_file(img, k, slot, offset))
}

fn see(img: &[u8], s: &[u8], offset: u32) -> Result<(usize, usize), Refusal>
    ensures { Sees img.now s.now offset result }
{
    let (k, _) = make_ready(img)?;
    see_on(img, k, s, offset)
}

pub fn view<'a>(img: &'a [u8], s: &[u8], offset: u32) -> &'a [u8]
    ensures { Views img.now s.now offset result.now }
{
    let (at, bytes) = see(img, s, offset).unwrap_or((0, 0));
    &img[at..at + bytes]
}

// (A number and not a refusal, as C reads it.)
pub fn view_number(img: &[u8], s: &[u8], offset: u32) -> u32
    ensures { ViewNumbers img.now s.now offset result }
{
    match see(img, s, offset) {
        Ok(_) => 0,
        Err(refusal) => refusal.number(),
    }
}
