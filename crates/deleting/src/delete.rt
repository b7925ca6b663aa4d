// Delete.
ghost use Rattle.std.specs.Prelude.{◌≡◌};
ghost use Rattle.calls.specs.Aids.Ready.{OnVolume};
ghost use Rattle.sound.specs.Files.{IsFile};
ghost use Rattle.deleting.specs.Delete.{erased_in, Deletes};

use calls::refusal::Refusal;
use calls::{files, make_ready};
use diskette::Kind;
use freeing::freed;

// Frees the chain of the file in the slot and erases its entry.
fn erase_in(img: &mut [u8], k: Kind, slot: usize)
    requires on_volume { OnVolume img.old k }
    requires file { IsFile k img.old slot }
    ensures { img.new ≡ erased_in k img.old slot }
{
    let a = k.slot_at(slot);
    freed::free_file(img, k, a);
    fields::put_first(img, a, 0xE5);
}

// Deletes a file of a volume that is ready.
fn delete_on(img: &mut [u8], k: Kind, t: &[u8], s: &[u8]) -> Result<u32, Refusal>
    requires { OnVolume img.old k }
    ensures { Deletes img.old t.now s.now result img.new }
{
    let name = names::name_given(s).ok_or(Refusal::BreaksRules)?;
    let slot = files::file_named(img, k, name).ok_or(Refusal::FileNotFound)?;
    if opened::is_open(t, slot) || files::is_read_only(img, k, slot) {
        return Err(Refusal::AccessDenied);
    }
    erase_in(img, k, slot);
    Ok(0)
}

pub fn delete(img: &mut [u8], t: &[u8], s: &[u8]) -> Result<u32, Refusal>
    ensures { Deletes img.old t.now s.now result img.new }
{
    let (k, _) = make_ready(img)?;
    delete_on(img, k, t, s)
}
