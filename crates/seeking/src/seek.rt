// Seek.
ghost use Rattle.std.specs.Prelude.{◌<◌, ◌≡◌};
ghost use Rattle.diskette.specs.Places.{root_entries};
ghost use Rattle.opened.specs.Records.{place_count, slot_of};
ghost use Rattle.calls.specs.Aids.Ready.{OnVolume};
ghost use Rattle.seeking.specs.Seek.{seek_base, Seeks};
ghost use Rattle.seeking.specs.Aids.Seek.{number_of, CountsBy};

use calls::refusal::Refusal;
use calls::{files, make_ready};
use diskette::Kind;

// From where an offset counts.
#[derive(Clone, Copy)]
pub enum Method {
    Start,
    Pointer,
    Size,
}

impl TryFrom<u32> for Method {
    type Error = Refusal;

    ghost try_from_gives = { CountsBy };

    fn try_from(number: u32) -> Result<Method, Refusal> {
        match number {
            0 => Ok(Method::Start),
            1 => Ok(Method::Pointer),
            2 => Ok(Method::Size),
            _ => Err(Refusal::InvalidFunction),
        }
    }
}

// The byte from where the offset counts.
fn base_of(img: &[u8], k: Kind, t: &[u8], place: usize, slot: usize, method: Method) -> u32
    requires on_volume { OnVolume img.now k }
    requires place_bound { place < place_count t.now }
    requires slot_bound { slot < root_entries k }
    requires slot_value { slot ≡ slot_of t.now place }
    ensures { result ≡ seek_base img.now t.now place (number_of method) }
{
    match method {
        Method::Start => 0,
        Method::Pointer => opened::pointer_at(t, place),
        Method::Size => fields::size_at(img, k.slot_at(slot)),
    }
}

// Moves a pointer on a volume that is ready.
fn seek_on(
    img: &[u8],
    k: Kind,
    t: &mut [u8],
    handle: u32,
    method: u32,
    offset: i32,
) -> Result<u32, Refusal>
    requires { OnVolume img.now k }
    ensures { Seeks img.now t.old handle method offset result t.new }
{
    let method = Method::try_from(method)?;
    let slot = files::file_open(img, k, t, handle).ok_or(Refusal::InvalidHandle)?;
    let place = handle as usize;
    let base = base_of(img, k, t, place, slot, method);
    let pointer = offset::moved_by(base, offset).ok_or(Refusal::InvalidFunction)?;
    opened::put_pointer(t, place, pointer);
    Ok(pointer)
}

pub fn seek(img: &[u8], t: &mut [u8], handle: u32, method: u32, offset: i32) -> Result<u32, Refusal>
    ensures { Seeks img.now t.old handle method offset result t.new }
{
    let (k, _) = make_ready(img)?;
    seek_on(img, k, t, handle, method, offset)
}
