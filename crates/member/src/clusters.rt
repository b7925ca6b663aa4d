// Clusters as the map shows them: what the value of one means, and which files hold it. For any image of a kind.
ghost use Rattle.std.specs.Prelude.{◌≡◌, ◌+◌, ◌-◌, ◌*◌, ◌≤◌, length};
ghost use Rattle.search.specs.Search.{lowest};
ghost use Rattle.diskette.specs.Images.{kind_of_image};
ghost use Rattle.diskette.specs.Aids.Usable.{Usable};
ghost use Rattle.diskette.specs.Places.{first_data, slot_from};
ghost use Rattle.table.specs.Entries.{word_at, table_of};
ghost use Rattle.member.specs.Clusters.{meaning_told, cluster_told, comes_to, holds_at, slot_holds, holder_told};

use calls::refusal::Refusal;
use diskette::Kind;
use values::Meaning;

// What a value means, as the number that C reads.
#[tactic(auto, unfolding(crate::specs::Clusters::meaning_told))]
fn meaning_told(meaning: Meaning) -> u64
    ensures { result ≡ meaning_told meaning }
{
    match meaning {
        Meaning::Free => 1,
        Meaning::Bad => 2,
        Meaning::Reserved => 3,
        Meaning::NoneOfThese => 4,
        Meaning::Next(_) => 5,
        Meaning::End => 6,
    }
}

// What the value of cluster c means; 0 where there is no such cluster.
fn value_told(img: &[u8], k: Kind, c: usize) -> u64
    requires usable { Usable k }
    requires k_in_bounds { 512 * first_data k ≤ length img.now }
    ensures { result ≡ cluster_told (Some k) img.now c }
{
    let last = k.last_cluster();
    if c < 2 || last < c {
        return 0;
    }
    meaning_told(values::meaning_of(walks::chain::value_of(img, last, c), last))
}

// What the value of a cluster means. Refused by 40 where the image is not of a kind.
pub fn member_cluster(img: &[u8], cluster: u32) -> u64
    ensures { result ≡ cluster_told (kind_of_image img.now) img.now cluster }
{
    match diskette::kind_of_image(img) {
        Some(k) => value_told(img, k, cluster as usize),
        None => super::refused_by(Refusal::OfNoKind),
    }
}

// Whether cluster c is one of the first n from the value start on.
fn comes_to(img: &[u8], last: usize, n: usize, start: usize, c: usize) -> bool
    requires last_bound { last ≤ 4079 }
    requires last_in_bounds { word_at 512 last + 2 ≤ length img.now }
    ensures { result ≡ comes_to last (table_of last img.now) c n start }
{
    let mut v = start;
    for _ in 0..n {
        if v < 2 || last < v {
            return false;
        }
        if v == c {
            return true;
        }
        v = walks::chain::value_of(img, last, v) as usize;
    }
    false
}

// Whether the entry at byte a is a plain file that holds cluster c.
fn holds_at(img: &[u8], last: usize, n: usize, c: usize, a: usize) -> bool
    requires last_bound { last ≤ 4079 }
    requires last_in_bounds { word_at 512 last + 2 ≤ length img.now }
    requires a_in_bounds { a + 32 ≤ length img.now }
    ensures { result ≡ holds_at last n img.now c a }
{
    directory::plain_at(img, a) && comes_to(img, last, n, fields::start_at(img, a) as usize, c)
}

// The lowest slot from this one on that holds cluster c, of a root with count slots that stands at byte root.
fn lowest_holder(
    img: &[u8],
    last: usize,
    n: usize,
    root: usize,
    count: usize,
    c: usize,
    from: usize,
) -> Option<usize>
    requires last_bound { last ≤ 4079 }
    requires last_in_bounds { word_at 512 last + 2 ≤ length img.now }
    requires count_in_bounds { root + 32 * count ≤ length img.now }
    ensures { result ≡ lowest (slot_holds last n img.now (slot_from root) c) from (count - from) }
{
    (from..count).find(|&slot| holds_at(img, last, n, c, root + 32 * slot))
}

// The same of a volume of the kind k, as the number that C reads: the slot and one more; 0 for none.
fn holder_told(img: &[u8], k: Kind, c: usize, from: usize) -> u64
    requires usable { Usable k }
    requires k_in_bounds { 512 * first_data k ≤ length img.now }
    ensures { result ≡ holder_told (Some k) img.now c from }
{
    let last = k.last_cluster();
    let root = k.root_at();
    let count = k.root_entries();
    match lowest_holder(img, last, k.clusters(), root, count, c, from) {
        Some(slot) => slot as u64 + 1,
        None => 0,
    }
}

// The same of an image. Refused by 40 where it is not of a kind.
pub fn member_holder(img: &[u8], cluster: u32, slot: u32) -> u64
    ensures { result ≡ holder_told (kind_of_image img.now) img.now cluster slot }
{
    match diskette::kind_of_image(img) {
        Some(k) => holder_told(img, k, cluster as usize, slot as usize),
        None => super::refused_by(Refusal::OfNoKind),
    }
}
