// Findings 2 and 3: the copies of the table, and the values of its entries.
#![tactic(auto)]

ghost use Rattle.std.specs.Prelude.{not, ◌≡◌, ◌+◌, ◌≤◌, ◌<◌, length};
ghost use Rattle.search.specs.Search.{lowest, is_found};
ghost use Rattle.table.specs.Entries.{word_at};
ghost use Rattle.tablecheck.specs.Aids.Copies.{differs_at, unlike_at, search_end};
ghost use Rattle.tablecheck.specs.Aids.Values.{census_of, Met, CountedTo};

use values::Meaning;

// How many clusters are free, bad and reserved.
#[derive(Clone, Copy, Default)]
pub struct Tally {
    pub free: usize,
    pub bad: usize,
    pub reserved: usize,
}

// Whether the copies are not as they must be at offset j.
#[tactic(auto, unfolding(crate::specs::Aids::Copies::differs_at))]
fn differs(img: &[u8], second: usize, j: usize) -> bool
    requires j_in_bounds { 512 + j < length img.now }
    requires j_in_bounds_2 { second + j < length img.now }
    ensures { result ≡ differs_at second img.now j }
{
    let byte = img[512 + j];
    byte != img[second + j] || ((j == 1 || j == 2) && byte != 0xFF)
}

// Whether all bytes are the same in both copies. All are looked at: without an early way out the compiler takes many at a time.
fn same_bytes(img: &[u8], second: usize, size: usize) -> bool
    requires { (512 + size ≤ second) × (second + size ≤ length img.now) }
    ensures { result ≡ not (is_found (lowest (unlike_at second img.now) 0 size)) }
{
    (0..size).fold(true, |same, j| same & (img[512 + j] == img[second + j]))
}

// Up to which offset the copies must be searched. Where all bytes are the same, only bytes 1 and 2 may be other than they must be.
#[tactic(auto, unfolding(crate::specs::Aids::Copies::search_end))]
fn search_end(img: &[u8], second: usize, size: usize) -> usize
    requires { (512 + size ≤ second) × (second + size ≤ length img.now) }
    ensures value { result ≡ search_end second img.now size }
    ensures within { result ≤ size }
{
    if same_bytes(img, second, size) {
        size.min(3)
    } else {
        size
    }
}

// The lowest offset at which the copies, of size bytes each, are not as they must be.
pub fn first_difference(img: &[u8], second: usize, size: usize) -> Option<usize>
    requires size_bound { 512 + size ≤ second }
    requires size_in_bounds { second + size ≤ length img.now }
    ensures { result ≡ lowest (differs_at second img.now) 0 size }
{
    let end = search_end(img, second, size);
    (0..end).find(|&j| differs(img, second, j))
}

// The tally up to cluster c with c's value counted too; or c, where its value means nothing.
fn counted(img: &[u8], last: usize, mut tally: Tally, c: usize) -> Result<Tally, usize>
    requires last_bound { last ≤ 4079 }
    requires last_in_bounds { word_at 512 last + 2 ≤ length img.now }
    requires c_bound { c < last + 1 }
    requires met { Met last img.now tally c }
    ensures { CountedTo last img.now (c + 1) result }
{
    match values::meaning_of(table::entry(img, c), last) {
        Meaning::Free => tally.free += 1,
        Meaning::Bad => tally.bad += 1,
        Meaning::Reserved => tally.reserved += 1,
        Meaning::NoneOfThese => return Err(c),
        Meaning::Next(_) | Meaning::End => (),
    }
    Ok(tally)
}

// The same for the two clusters c and c + 1.
fn counted_two(img: &[u8], last: usize, tally: Tally, c: usize) -> Result<Tally, usize>
    requires last_bound { last ≤ 4079 }
    requires last_in_bounds { word_at 512 last + 2 ≤ length img.now }
    requires c_lt_last { c < last }
    requires met { Met last img.now tally c }
    ensures { CountedTo last img.now (c + 2) result }
{
    let tally = counted(img, last, tally, c)?;
    counted(img, last, tally, c + 1)
}

// The tally of all clusters; or the lowest whose value means nothing. Two clusters at a time, which share three bytes of the
// table: so c is even, and the compiler knows which half of the middle byte is whose. (A `for` would not say whether one is left.)
pub fn take_census(img: &[u8], last: usize) -> Result<Tally, usize>
    requires last_bound { last ≤ 4079 }
    requires last_in_bounds { word_at 512 last + 2 ≤ length img.now }
    ensures { result ≡ census_of last img.now }
{
    let after = last + 1;
    let mut tally = Tally::default();
    let mut c: usize = 2;
    while c < last {
        tally = counted_two(img, last, tally, c)?;
        c += 2;
    }
    if c < after {
        return counted(img, last, tally, c);
    }
    Ok(tally)
}
