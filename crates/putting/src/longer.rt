// A file made longer: its spare clusters first, then more of them behind the last; start and size stored.
ghost use Rattle.std.specs.Prelude.{◌+◌, ◌-◌, ◌≤◌, ◌<◌, cond, ◌≡◌, eqb, length};
ghost use Rattle.image.specs.Bytes.{Bytes};
ghost use Rattle.fields.specs.Fields.{with_start, with_size};
ghost use Rattle.diskette.specs.Places.{last_cluster};
ghost use Rattle.links.specs.Aids.Extent.{extent_of};
ghost use Rattle.links.specs.Aids.Linked.{Behind};
ghost use Rattle.sound.specs.Files.{value_of};
ghost use Rattle.calls.specs.Aids.Ready.{OnVolume};
ghost use Rattle.holding.specs.Holding.{file_chain};
ghost use Rattle.putting.specs.Aids.Longer.{CanGrow, AddedBehind, Grows, Lengthens};

use diskette::Kind;
use links::Extent;

// Adds n clusters behind end, the last of a chain or 0, the lowest free one each time, and answers the first of them.
fn add_behind(img: &mut [u8], k: Kind, end: usize, n: usize) -> usize
    requires on_volume { OnVolume img.old k }
    requires bytes { Bytes img.old }
    requires behind { Behind (last_cluster k) (value_of k img.old) end }
    ensures { AddedBehind k img.old end n result img.new }
{
    links::add_clusters(img, k.copy_two(), k.last_cluster(), end, n)
}

// Where a chain starts: a file that had no cluster starts with the first new one.
fn start_then(own: usize, start: usize, first: usize) -> usize
    ensures { result ≡ cond (eqb own 0) first start }
{
    if own == 0 { first } else { start }
}

// Stores start and size of the entry at byte a.
fn put_fields(img: &mut [u8], a: usize, start: usize, size: u32)
    requires a_in_bounds { a + 32 ≤ length img.old }
    requires start_bound { start < 65536 }
    ensures { img.new ≡ with_size (with_start img.old a start) a size }
{
    fields::put_start(img, a, start as u16);
    fields::put_size(img, a, size);
}

// Gives the file the clusters that it lacks for that size; own is how far its chain goes. Answers where it starts then.
fn grow_chain(img: &mut [u8], k: Kind, a: usize, own: Extent, size: u32) -> usize
    requires can_grow { CanGrow k img.old a size }
    requires own_value { own ≡ extent_of (file_chain k img.old a) }
    ensures { Grows k img.old a size result img.new }
{
    let start = fields::start_at(img, a) as usize;
    let more = k.needed_for(size).saturating_sub(own.clusters);
    let first = add_behind(img, k, own.end, more);
    start_then(own.clusters, start, first)
}

// The same, with start and size stored.
pub fn lengthen(img: &mut [u8], k: Kind, a: usize, own: Extent, size: u32) -> usize
    requires can_grow { CanGrow k img.old a size }
    requires own_value { own ≡ extent_of (file_chain k img.old a) }
    ensures { Lengthens k img.old a size result img.new }
{
    let start = grow_chain(img, k, a, own, size);
    put_fields(img, a, start, size);
    start
}
