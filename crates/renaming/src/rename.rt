// Rename.
ghost use Rattle.std.specs.Prelude.{◌<◌, ◌≡◌};
ghost use Rattle.diskette.specs.Places.{root_entries, slot_at};
ghost use Rattle.fields.specs.Fields.{with_name};
ghost use Rattle.search.specs.Search.{is_found};
ghost use Rattle.directory.specs.Search.{slot_named};
ghost use Rattle.calls.specs.Aids.Ready.{OnVolume};
ghost use Rattle.renaming.specs.Rename.{Renames};

use calls::refusal::Refusal;
use calls::{files, make_ready};
use diskette::Kind;

// Whether a plain file has the name.
fn is_taken(img: &[u8], k: Kind, name: [u8; 11]) -> bool
    requires { OnVolume img.now k }
    ensures { result ≡ is_found (slot_named img.now (slot_at k) (root_entries k) name) }
{
    files::file_named(img, k, name).is_some()
}

// Stores the name of the entry in the slot.
fn put_name_in(img: &mut [u8], k: Kind, slot: usize, name: [u8; 11])
    requires on_volume { OnVolume img.old k }
    requires slot_bound { slot < root_entries k }
    ensures { img.new ≡ with_name img.old (slot_at k slot) name }
{
    fields::put_name(img, k.slot_at(slot), name);
}

// Renames a file of a volume that is ready: s is its name, n the new one.
fn rename_on(img: &mut [u8], k: Kind, t: &[u8], s: &[u8], n: &[u8]) -> Result<u32, Refusal>
    requires { OnVolume img.old k }
    ensures { Renames img.old t.now s.now n.now result img.new }
{
    let name = names::name_given(s).ok_or(Refusal::BreaksRules)?;
    let new_name = names::name_given(n).ok_or(Refusal::BreaksRules)?;
    let slot = files::file_named(img, k, name).ok_or(Refusal::FileNotFound)?;
    if opened::is_open(t, slot) || files::is_read_only(img, k, slot) || is_taken(img, k, new_name) {
        return Err(Refusal::AccessDenied);
    }
    put_name_in(img, k, slot, new_name);
    Ok(0)
}

pub fn rename(img: &mut [u8], t: &[u8], s: &[u8], n: &[u8]) -> Result<u32, Refusal>
    ensures { Renames img.old t.now s.now n.now result img.new }
{
    let (k, _) = make_ready(img)?;
    rename_on(img, k, t, s, n)
}
