// Bytes put into a file: zeros from its size on up to the pointer, and the bytes from there.
ghost use Rattle.std.specs.Prelude.{◌*◌, ◌-◌, ◌≤◌, max, ◌≡◌, length, take};
ghost use Rattle.chains.specs.Write.{written_image};
ghost use Rattle.diskette.specs.Aids.Usable.{Usable};
ghost use Rattle.diskette.specs.Places.{first_data, cluster_bytes, last_cluster};
ghost use Rattle.links.specs.Aids.Extent.{extent_of};
ghost use Rattle.contents.specs.Aids.Contents.{chain_from, bytes_put, zeros_put};
ghost use Rattle.holding.specs.Holding.{file_chain};
ghost use Rattle.putting.specs.Aids.Put.{HasRoom, CanPut};
ghost use Rattle.putting.specs.Written.{written_in};

use crate::longer;
use diskette::Kind;
use links::Extent;

// Puts zeros into the chain that starts at start, from byte size on up to byte pointer.
fn fill_gap(img: &mut [u8], k: Kind, start: usize, size: u32, pointer: u32)
    requires usable { Usable k }
    requires has_room { HasRoom k img.old start pointer 0 }
    ensures { img.new ≡ zeros_put (512 * first_data k) (cluster_bytes k) (last_cluster k) img.old start size (pointer - size) }
{
    if pointer <= size {
        return;
    }
    let base = 512 * k.first_data();
    let gap = pointer - size;
    contents::pour_zeros(
        img,
        base,
        k.cluster_bytes(),
        k.last_cluster(),
        start,
        size as usize,
        gap as usize,
    );
}

// Puts the bytes into it, from byte pointer on.
fn put_bytes(img: &mut [u8], k: Kind, start: usize, pointer: u32, bytes: &[u8])
    requires usable { Usable k }
    requires has_room { HasRoom k img.old start pointer (length bytes.now) }
    ensures { img.new ≡ bytes_put (512 * first_data k) (cluster_bytes k) (last_cluster k) img.old start pointer bytes.now }
{
    let base = 512 * k.first_data();
    contents::pour(
        img,
        base,
        k.cluster_bytes(),
        k.last_cluster(),
        start,
        pointer as usize,
        bytes,
    );
}

// Both, the zeros first.
fn put_along(img: &mut [u8], k: Kind, start: usize, size: u32, pointer: u32, bytes: &[u8])
    requires usable { Usable k }
    requires has_room { HasRoom k img.old start pointer (length bytes.now) }
    ensures { img.new ≡ written_image (512 * first_data k) (cluster_bytes k) img.old (chain_from (last_cluster k) img.old start) size pointer bytes.now }
{
    fill_gap(img, k, start, size, pointer);
    put_bytes(img, k, start, pointer, bytes);
}

// Puts the bytes at the pointer into the file whose entry starts at byte a; own is how far its chain goes.
fn put_in_file(img: &mut [u8], k: Kind, a: usize, own: Extent, pointer: u32, bytes: &[u8])
    requires can_put { CanPut k img.old a pointer (length bytes.now) }
    requires own_value { own ≡ extent_of (file_chain k img.old a) }
    ensures { img.new ≡ written_in k img.old a pointer bytes.now }
{
    let size = fields::size_at(img, a);
    let after = size.max(pointer + bytes.len() as u32);
    let start = longer::lengthen(img, k, a, own, after);
    put_along(img, k, start, size, pointer, bytes);
}

// Puts the first n of the bytes there.
pub fn put_first(
    img: &mut [u8],
    k: Kind,
    a: usize,
    own: Extent,
    pointer: u32,
    bytes: &[u8],
    n: usize,
)
    requires can_put { CanPut k img.old a pointer n }
    requires own_value { own ≡ extent_of (file_chain k img.old a) }
    requires n_in_bounds { n ≤ length bytes.now }
    ensures { img.new ≡ written_in k img.old a pointer (take n bytes.now) }
{
    put_in_file(img, k, a, own, pointer, &bytes[..n]);
}
