// Rescue.
ghost use Rattle.std.specs.Prelude.{◌≤◌, true, ◌≡◌, length, take};
ghost use Rattle.image.specs.Store.{stored};
ghost use Rattle.chains.specs.Values.{endb};
ghost use Rattle.diskette.specs.Images.{kind_of_image};
ghost use Rattle.diskette.specs.Places.{slot_at};
ghost use Rattle.fields.specs.Fields.{size_of};
ghost use Rattle.holding.specs.Holding.{file_bytes};
ghost use Rattle.sound.specs.Files.{IsFile};
ghost use Rattle.rescuing.specs.Rescue.{good_chain, rescue_count, Rescues};

use calls::refusal::Refusal;
use diskette::Kind;

// How many bytes out and size allow.
fn count_of(room: usize, size: u32) -> u32
    ensures { result ≡ rescue_count room size }
{
    room.min(size as usize) as u32
}

// Whether v is an end value.
#[tactic(auto, unfolding(chains::specs::Values::endb))]
fn is_end(v: usize) -> bool
    ensures { result ≡ endb v }
{
    (0xFF8..=0xFFF).contains(&v)
}

// Whether the chain of the file in the slot is as finding 5 asks. One that comes to no end has a last cluster too, but no end
// value there.
fn has_good_chain(img: &[u8], k: Kind, slot: usize) -> bool
    requires img_value { kind_of_image img.now ≡ Some k }
    requires file { IsFile k img.now slot }
    ensures { result ≡ good_chain k img.now slot }
{
    let a = k.slot_at(slot);
    let size = fields::size_at(img, a);
    if fields::start_at(img, a) == 0 {
        return size == 0;
    }
    let own = holding::extent_at(img, k, a);
    k.needed_for(size) <= own.clusters && is_end(links::value_of(img, k.last_cluster(), own.end))
}

// Copies the first n bytes of the file in the slot, whose chain is good, to the front of out.
fn copy_out(img: &[u8], k: Kind, slot: usize, out: &mut [u8], n: u32)
    requires img_value { kind_of_image img.now ≡ Some k }
    requires file { IsFile k img.now slot }
    requires slot_value { good_chain k img.now slot ≡ true }
    requires n_bound { n ≤ size_of img.now (slot_at k slot) }
    requires n_in_bounds { n ≤ length out.old }
    ensures { out.new ≡ stored out.old 0 (take n (file_bytes k img.now (slot_at k slot))) }
{
    let base = 512 * k.first_data();
    let start = fields::start_at(img, k.slot_at(slot)) as usize;
    contents::fetch(
        img,
        base,
        k.cluster_bytes(),
        k.last_cluster(),
        start,
        0,
        out,
        n as usize,
    );
}

// Rescues a file of an image of the kind.
fn rescue_on(img: &[u8], k: Kind, s: &[u8], out: &mut [u8]) -> Result<u32, Refusal>
    requires { kind_of_image img.now ≡ Some k }
    ensures { Rescues img.now s.now out.old result out.new }
{
    let name = names::name_given(s).ok_or(Refusal::BreaksRules)?;
    let slot = directory::slot_named(img, k.root_at(), k.root_entries(), name).ok_or(
        Refusal::FileNotFound,
    )?;
    if !has_good_chain(img, k, slot) {
        return Err(Refusal::AccessDenied);
    }
    let size = fields::size_at(img, k.slot_at(slot));
    let n = count_of(out.len(), size);
    copy_out(img, k, slot, out, n);
    Ok(n)
}

pub fn rescue(img: &[u8], s: &[u8], out: &mut [u8]) -> Result<u32, Refusal>
    ensures { Rescues img.now s.now out.old result out.new }
{
    let k = diskette::kind_of_image(img).ok_or(Refusal::OfNoKind)?;
    rescue_on(img, k, s, out)
}
