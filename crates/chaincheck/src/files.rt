// The files of a directory, one after the other.
ghost use Rattle.std.specs.Prelude.{◌≡◌, ◌+◌, ◌*◌, ◌≤◌, ◌<◌, length};
ghost use Rattle.chains.specs.Aids.Sizes.{fits};
ghost use Rattle.diskette.specs.Places.{slot_from};
ghost use Rattle.table.specs.Entries.{word_at, table_of};
ghost use Rattle.walks.specs.Aids.Walks.{Tails};
ghost use Rattle.chaincheck.specs.Aids.Visits.{SlotVisited, FilesVisited};

use crate::{BadChain, Chains};

// Whether n clusters have room for size bytes. (This product costs less than the quotient that says how many are needed.)
fn has_room(n: usize, size: usize, cb: usize) -> bool
    requires n_bound { n ≤ 4079 }
    requires cb_nonzero { (0 < cb) × (cb ≤ 4096) }
    ensures { result ≡ fits cb size n }
{
    size <= n * cb
}

// Visits the chain of the entry at byte a, if it is a plain file, and holds its length against the size: how many clusters the
// file has. A cluster has cb bytes.
fn visit_slot(
    img: &[u8],
    marks: &mut [u8],
    left: &mut [u16],
    a: usize,
    last: usize,
    cb: usize,
) -> Result<Option<usize>, BadChain>
    requires last_bound { last ≤ 4079 }
    requires last_in_bounds { word_at 512 last + 2 ≤ length img.now }
    requires last_in_bounds_2 { (last < length marks.old) × (last < length left.old) }
    requires tails { Tails last (table_of last img.now) marks.old left.old }
    requires a_in_bounds { a + 32 ≤ length img.now }
    requires cb_nonzero { (0 < cb) × (cb ≤ 4096) }
    ensures { SlotVisited last cb img.now a marks.old result marks.new left.new }
{
    if !directory::plain_at(img, a) {
        return Ok(None);
    }
    let size = fields::size_at(img, a) as usize;
    let start = fields::start_at(img, a) as usize;
    let Some(n) = walks::chain::visit(img, marks, left, last, start) else {
        return Err(BadChain);
    };
    if has_room(n, size, cb) {
        Ok(Some(n))
    } else {
        Err(BadChain)
    }
}

// Visits the files of a directory with count slots that stands at byte root, in slot order, up to the lowest slot of a file
// with a bad chain: that is the error.
pub fn visit_files(
    img: &[u8],
    marks: &mut [u8],
    left: &mut [u16],
    root: usize,
    count: usize,
    last: usize,
    cb: usize,
) -> Result<Chains, usize>
    requires last_bound { last ≤ 4079 }
    requires last_in_bounds { word_at 512 last + 2 ≤ length img.now }
    requires last_in_bounds_2 { (last < length marks.old) × (last < length left.old) }
    requires tails { Tails last (table_of last img.now) marks.old left.old }
    requires count_in_bounds { (root + 32 * count ≤ length img.now) × (count ≤ 65536) }
    requires cb_nonzero { (0 < cb) × (cb ≤ 4096) }
    ensures { FilesVisited last cb img.now (slot_from root) count marks.old result marks.new }
{
    let mut files: usize = 0;
    let mut held: usize = 0;
    for s in 0..count {
        let visited = visit_slot(img, marks, left, root + 32 * s, last, cb);
        if let Some(n) = visited.map_err(|_| s)? {
            files += 1;
            held += n;
        }
    }
    Ok(Chains { files, held })
}
