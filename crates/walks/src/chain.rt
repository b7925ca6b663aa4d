// The walk along one chain.
ghost use Rattle.std.specs.Prelude.{◌≡◌, ◌+◌, ◌-◌, ◌≤◌, ◌<◌, length};
ghost use Rattle.table.specs.Entries.{word_at, table_of};
ghost use Rattle.walks.specs.Aids.Walks.{ValueIs, LeadsTo, Tails, Walked, left_stored, Visited};

use values::Meaning;

// The value of cluster c, which has 12 bits.
pub fn value_of(img: &[u8], last: usize, c: usize) -> u16
    requires last_bound { last ≤ 4079 }
    requires last_in_bounds { word_at 512 last + 2 ≤ length img.now }
    requires le_c { (2 ≤ c) × (c ≤ last) }
    ensures { ValueIs last img.now c result }
{
    table::entry(img, c)
}

// Walks the chain that starts at start and marks its clusters. A cluster met twice ends it: where files before this one met
// it, the rest has its marks, and left says how many clusters that is; where the walk itself did, left is 0 and the chain
// circles. No chain has more clusters than the volume.
fn walk(
    img: &[u8],
    marks: &mut [u8],
    left: &[u16],
    last: usize,
    start: usize,
) -> Option<(usize, usize)>
    requires last_bound { last ≤ 4079 }
    requires last_in_bounds { word_at 512 last + 2 ≤ length img.now }
    requires last_in_bounds_2 { (last < length marks.old) × (last < length left.now) }
    requires le_start { (2 ≤ start) × (start ≤ last) }
    requires tails { Tails last (table_of last img.now) marks.old left.now }
    ensures { Walked last (table_of last img.now) start marks.old left.now result marks.new }
{
    let mut c = start;
    for met in 0..last - 1 {
        let before = marks[c];
        if before == 2 {
            let rest = left[c] as usize;
            if rest == 0 {
                return None;
            }
            return Some((met + rest, rest));
        }
        marks[c] = before + 1;
        let met = met + 1;
        match values::meaning_of(value_of(img, last, c), last) {
            Meaning::End => {
                // Along a chain marks do not fall: where its last cluster was not met before, none was.
                if before == 1 {
                    return Some((met, 0));
                }
                return Some((met, met));
            }
            Meaning::Next(next) => c = next,
            Meaning::Free => return None,
            Meaning::Bad => return None,
            Meaning::Reserved => return None,
            Meaning::NoneOfThese => return None,
        }
    }
    None
}

// Stores how many clusters are left to the end of a chain of n clusters, for all but the known ones at its end.
fn store_left(img: &[u8], left: &mut [u16], last: usize, start: usize, n: usize, known: usize)
    requires last_bound { last ≤ 4079 }
    requires last_in_bounds { word_at 512 last + 2 ≤ length img.now }
    requires last_in_bounds_2 { last < length left.old }
    requires known_le_n { (known ≤ n) × (n ≤ last) }
    requires leads_to { LeadsTo last (table_of last img.now) start n }
    ensures { left.new ≡ left_stored (table_of last img.now) left.old start n (n - known) }
{
    let mut c = start;
    for rest in (known + 1..n + 1).rev() {
        left[c] = rest as u16;
        c = usize::from(value_of(img, last, c));
    }
}

// Visits the chain that starts at start, marks its clusters, and says how many there are.
pub fn visit(
    img: &[u8],
    marks: &mut [u8],
    left: &mut [u16],
    last: usize,
    start: usize,
) -> Option<usize>
    requires last_bound { last ≤ 4079 }
    requires last_in_bounds { word_at 512 last + 2 ≤ length img.now }
    requires last_in_bounds_2 { (last < length marks.old) × (last < length left.old) }
    requires tails { Tails last (table_of last img.now) marks.old left.old }
    ensures { Visited last (table_of last img.now) start marks.old result marks.new left.new }
{
    if start == 0 {
        return Some(0);
    }
    if start < 2 {
        return None;
    }
    if last < start {
        return None;
    }
    match walk(img, marks, left, last, start) {
        Some((n, known)) => {
            store_left(img, left, last, start, n, known);
            Some(n)
        }
        None => None,
    }
}
