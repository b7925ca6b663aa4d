// The files of a volume that is ready, as the calls look at them.
ghost use Rattle.std.specs.Prelude.{◌<◌, ◌≡◌};
ghost use Rattle.diskette.specs.Places.{slot_at, root_entries};
ghost use Rattle.directory.specs.Search.{slot_named};
ghost use Rattle.opened.specs.Aids.Places.{live_slot};
ghost use Rattle.calls.specs.Aids.Ready.{OnVolume};
ghost use Rattle.calls.specs.Refusals.{read_only};

use diskette::Kind;

// The slot of the plain file of that name.
pub fn file_named(img: &[u8], k: Kind, name: [u8; 11]) -> Option<usize>
    requires { OnVolume img.now k }
    ensures { result ≡ slot_named img.now (slot_at k) (root_entries k) name }
{
    directory::slot_named(img, k.root_at(), k.root_entries(), name)
}

// Whether the file in the slot is marked read-only.
pub fn is_read_only(img: &[u8], k: Kind, slot: usize) -> bool
    requires on_volume { OnVolume img.now k }
    requires slot_bound { slot < root_entries k }
    ensures { result ≡ read_only img.now slot }
{
    directory::has_bit(fields::attr_at(img, k.slot_at(slot)), 0x01)
}

// The slot of the file that the handle reaches.
pub fn file_open(img: &[u8], k: Kind, t: &[u8], handle: u32) -> Option<usize>
    requires { OnVolume img.now k }
    ensures { result ≡ live_slot t.now handle img.now (slot_at k) (root_entries k) }
{
    opened::live_slot(t, handle, img, k.root_at(), k.root_entries())
}
