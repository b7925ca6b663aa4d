// Close.
ghost use Rattle.std.specs.Prelude.{◌+◌, ◌≤◌, ◌≡◌, length};
ghost use Rattle.calls.specs.Aids.Ready.{OnVolume};
ghost use Rattle.closing.specs.Close.{stamped, Closes};

use calls::refusal::Refusal;
use calls::{files, make_ready};
use diskette::Kind;
use stamps::Stamp;

// Sets bit 20 and the stamp of the entry at byte a.
fn stamp_entry(img: &mut [u8], a: usize, time: u16, date: u16)
    requires { a + 32 ≤ length img.old }
    ensures { img.new ≡ stamped img.old a time date }
{
    let attr = fields::attr_at(img, a) | 0x20;
    fields::put_attr(img, a, attr);
    fields::put_time(img, a, time);
    fields::put_date(img, a, date);
}

// Closes a file of a volume that is ready.
fn close_on(
    img: &mut [u8],
    k: Kind,
    t: &mut [u8],
    handle: u32,
    stamp: Stamp,
) -> Result<u32, Refusal>
    requires { OnVolume img.old k }
    ensures { Closes img.old t.old handle stamp result img.new t.new }
{
    let (time, date) = stamp.pack().ok_or(Refusal::OutOfRange)?;
    let slot = files::file_open(img, k, t, handle).ok_or(Refusal::InvalidHandle)?;
    let place = handle as usize;
    if opened::written_at(t, place) {
        stamp_entry(img, k.slot_at(slot), time, date);
    }
    opened::clear(t, place);
    Ok(0)
}

pub fn close(img: &mut [u8], t: &mut [u8], handle: u32, stamp: Stamp) -> Result<u32, Refusal>
    ensures { Closes img.old t.old handle stamp result img.new t.new }
{
    let (k, _) = make_ready(img)?;
    close_on(img, k, t, handle, stamp)
}
