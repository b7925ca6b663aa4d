// Findings 6 and 7, by the marks of all chains.
ghost use Rattle.std.specs.Prelude.{not, ◌≡◌, ◌+◌, ◌-◌, ◌≤◌, ◌<◌, length};
ghost use Rattle.chains.specs.Aids.Check.{in_two, lost};
ghost use Rattle.search.specs.Search.{lowest, is_found};
ghost use Rattle.table.specs.Entries.{word_at, table_of};

use values::Meaning;

// Whether no cluster was met twice. All are looked at: without an early way out the compiler takes many at a time.
fn none_in_two(marks: &[u8], last: usize) -> bool
    requires last_bound { last ≤ 4079 }
    requires last_in_bounds { last < length marks.now }
    ensures { result ≡ not (is_found (lowest (in_two marks.now) 2 (last - 1))) }
{
    (2..last + 1).fold(true, |none, c| none & (marks[c] != 2))
}

// The lowest cluster that was met twice. As a rule there is none, and nothing is searched.
pub fn first_in_two(marks: &[u8], last: usize) -> Option<usize>
    requires last_bound { last ≤ 4079 }
    requires last_in_bounds { last < length marks.now }
    ensures { result ≡ lowest (in_two marks.now) 2 (last - 1) }
{
    if none_in_two(marks, last) {
        return None;
    }
    (2..last + 1).find(|&c| marks[c] == 2)
}

// Whether cluster c was not met and its value is a link or an end.
fn is_lost(img: &[u8], marks: &[u8], last: usize, c: usize) -> bool
    requires last_bound { last ≤ 4079 }
    requires last_in_bounds { word_at 512 last + 2 ≤ length img.now }
    requires last_in_bounds_2 { last < length marks.now }
    requires le_c { (2 ≤ c) × (c ≤ last) }
    ensures { result ≡ lost last (table_of last img.now) marks.now c }
{
    if marks[c] != 0 {
        return false;
    }
    let value = walks::chain::value_of(img, last, c);
    matches!(
        values::meaning_of(value, last),
        Meaning::Next(_) | Meaning::End
    )
}

// The lowest such cluster.
pub fn first_lost(img: &[u8], marks: &[u8], last: usize) -> Option<usize>
    requires last_bound { last ≤ 4079 }
    requires last_in_bounds { word_at 512 last + 2 ≤ length img.now }
    requires last_in_bounds_2 { last < length marks.now }
    ensures { result ≡ lowest (lost last (table_of last img.now) marks.now) 2 (last - 1) }
{
    (2..last + 1).find(|&c| is_lost(img, marks, last, c))
}
