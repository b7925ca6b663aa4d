// The table's entries: read, and written in both copies. Two entries stand in three bytes, and each is read and written by its
// own two: the third byte of the last three may lie behind the copy.
#![tactic(auto)]

ghost use Rattle.std.specs.Prelude.{true, false, ◌≡◌, ◌+◌, ◌-◌, ◌≤◌, ◌<◌, length};
ghost use Rattle.table.specs.Entries.{word_at, entry_at, entry_of, set_at, set_both, table_of};
ghost use Rattle.table.specs.Aids.Copies.{Reaches};
ghost use Rattle.table.specs.Aids.Triples.{with_word};

use values::{first_of, middle_for_first, middle_for_second, second_of};

// Entry n of the copy that starts at byte base. Its two bytes begin at one and a half times n: with the low one of its three
// where n is even, with the middle one where it is odd. (Both readings are made, so that nothing has to be guessed at a branch.)
#[tactic(auto, using(crate::proofs::Laws::Triples::read_even, crate::proofs::Laws::Triples::read_odd))]
pub fn entry_at(img: &[u8], base: usize, n: usize) -> u16
    requires n_bound { n ≤ 4095 }
    requires n_in_bounds { word_at base n + 2 ≤ length img.now }
    ensures { result ≡ entry_at base img.now n }
{
    let at = base + n * 3 / 2;
    let byte = img[at];
    let next = img[at + 1];
    let first = first_of(byte, next);
    let second = second_of(byte, next);
    if n % 2 == 0 { first } else { second }
}

// Entry n, from copy 1.
pub fn entry(img: &[u8], n: usize) -> u16
    requires n_bound { n ≤ 4095 }
    requires n_in_bounds { word_at 512 n + 2 ≤ length img.now }
    ensures { result ≡ entry_of img.now n }
{
    entry_at(img, 512, n)
}

// Stores v as the first entry of its three bytes, whose low byte is at byte at. (One function for both entries would ask at each byte
// which of them it is.)
#[tactic(auto, using(crate::proofs::Laws::Triples::put_first))]
fn set_first(img: &mut [u8], at: usize, v: u16)
    requires at_in_bounds { at + 2 ≤ length img.old }
    requires v_bound { v < 4096 }
    ensures { img.new ≡ with_word true img.old at v }
{
    let low = (v % 256) as u8;
    let middle = middle_for_first(img[at + 1], v);
    img[at] = low;
    img[at + 1] = middle;
}

// Stores v as the second entry of its three bytes, whose middle byte is at byte at.
#[tactic(auto, using(crate::proofs::Laws::Triples::put_second))]
fn set_second(img: &mut [u8], at: usize, v: u16)
    requires at_in_bounds { at + 2 ≤ length img.old }
    requires v_bound { v < 4096 }
    ensures { img.new ≡ with_word false img.old at v }
{
    let middle = middle_for_second(img[at], v);
    let high = (v / 16) as u8;
    img[at] = middle;
    img[at + 1] = high;
}

// Stores v as entry n of the copy that starts at byte base.
#[tactic(auto, using(crate::proofs::Laws::Triples::set_even, crate::proofs::Laws::Triples::set_odd))]
pub fn set_at(img: &mut [u8], base: usize, n: usize, v: u16)
    requires n_bound { n ≤ 4095 }
    requires n_in_bounds { word_at base n + 2 ≤ length img.old }
    requires v_bound { v < 4096 }
    ensures { img.new ≡ set_at base img.old n v }
{
    let at = base + n * 3 / 2;
    if n % 2 == 0 {
        set_first(img, at, v);
    } else {
        set_second(img, at, v);
    }
}

// Stores v as entry n, in both copies.
#[tactic(auto, using(crate::proofs::Laws::Copies::both_stored))]
pub fn set_entry(img: &mut [u8], second: usize, n: usize, v: u16)
    requires n_bound { n ≤ 4095 }
    requires reaches { Reaches second img.old n }
    requires v_bound { v < 4096 }
    ensures { img.new ≡ set_both second img.old n v }
{
    set_at(img, 512, n, v);
    set_at(img, second, n, v);
}
