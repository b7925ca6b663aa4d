// Open.
ghost use Rattle.std.specs.Prelude.{◌<◌, ◌&&◌, ◌≡◌, ltb};
ghost use Rattle.diskette.specs.Places.{root_entries};
ghost use Rattle.opening.specs.Open.{Opens};
ghost use Rattle.calls.specs.Aids.Ready.{OnVolume};
ghost use Rattle.calls.specs.Refusals.{read_only};

use calls::refusal::Refusal;
use calls::{files, make_ready};
use diskette::Kind;

// Whether the access is refused to the file in the slot: a read-only file opens with access 0 alone.
fn is_barred(img: &[u8], k: Kind, slot: usize, access: u32) -> bool
    requires on_volume { OnVolume img.now k }
    requires slot_bound { slot < root_entries k }
    ensures { result ≡ (ltb 0 access && read_only img.now slot) }
{
    0 < access && files::is_read_only(img, k, slot)
}

// Opens a file of a volume that is ready.
fn open_on(img: &[u8], k: Kind, t: &mut [u8], s: &[u8], access: u32) -> Result<u32, Refusal>
    requires { OnVolume img.now k }
    ensures { Opens img.now t.old s.now access result t.new }
{
    if 2 < access {
        return Err(Refusal::InvalidAccess);
    }
    let name = names::name_given(s).ok_or(Refusal::BreaksRules)?;
    let slot = files::file_named(img, k, name).ok_or(Refusal::FileNotFound)?;
    if is_barred(img, k, slot, access) {
        return Err(Refusal::AccessDenied);
    }
    let place = opened::lowest_unused(t).ok_or(Refusal::TooManyOpen)?;
    opened::put_record(t, place, access as u8, slot as u32, 0);
    Ok(place as u32)
}

pub fn open(img: &[u8], t: &mut [u8], s: &[u8], access: u32) -> Result<u32, Refusal>
    ensures { Opens img.now t.old s.now access result t.new }
{
    let (k, _) = make_ready(img)?;
    open_on(img, k, t, s, access)
}
