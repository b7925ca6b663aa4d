// Check: whether a volume is sound, and if not, what is wrong with it and where.
#![tactic(auto)]

ghost use Rattle.std.specs.Prelude.{◌≡◌, ◌+◌, ◌*◌, ◌≤◌, ◌<◌, length, Ok};
ghost use Rattle.diskette.specs.Aids.Usable.{Usable};
ghost use Rattle.diskette.specs.Places.{first_data};
ghost use Rattle.table.specs.Entries.{word_at, table_of};
ghost use Rattle.sound.specs.Numbers.{number_of, place_of};
ghost use Rattle.sound.specs.Answer.{Checked, CheckedArea};
ghost use Rattle.sound.specs.Aids.Judged.{marks_judged, chains_judged, judged};

use diskette::Kind;
use tablecheck::Tally;

// The counts of a sound volume: files, and clusters that are free, held by files, bad and reserved.
#[derive(Clone, Copy, Debug, PartialEq, Eq)]
pub struct Counts {
    pub files: usize,
    pub free: usize,
    pub held: usize,
    pub bad: usize,
    pub reserved: usize,
}

// Why a volume isn't sound: the first finding, with the lowest offset, cluster or slot at which it holds.
#[derive(Clone, Copy, Debug, PartialEq, Eq)]
pub enum Finding {
    // The bytes are of no kind.
    OfNoKind,
    // The copies of the table differ at that offset, or the byte there is not FF.
    CopiesDiffer(usize),
    // The value of that cluster means nothing.
    BadValue(usize),
    // That slot of the directory may not stand there.
    BadEntry(usize),
    // The chain of the file in that slot is too short, broken or without end.
    WrongChain(usize),
    // That cluster is in two files' chains.
    SharedCluster(usize),
    // That cluster has a link or an end and is in no chain.
    LostCluster(usize),
}

impl Finding {
    // Its number in the order of the findings.
    pub fn number(self) -> usize
        ensures { result ≡ number_of self }
    {
        match self {
            Finding::OfNoKind => 1,
            Finding::CopiesDiffer(_) => 2,
            Finding::BadValue(_) => 3,
            Finding::BadEntry(_) => 4,
            Finding::WrongChain(_) => 5,
            Finding::SharedCluster(_) => 6,
            Finding::LostCluster(_) => 7,
        }
    }

    // Where it holds; 0 for what has no place.
    pub fn place(self) -> usize
        ensures { result ≡ place_of self }
    {
        match self {
            Finding::OfNoKind => 0,
            Finding::CopiesDiffer(place)
            | Finding::BadValue(place)
            | Finding::BadEntry(place)
            | Finding::WrongChain(place)
            | Finding::SharedCluster(place)
            | Finding::LostCluster(place) => place,
        }
    }
}

// Findings 6 and 7, by the marks of all chains; the counts where there is none.
fn judge_marks(img: &[u8], marks: &[u8], last: usize, counts: Counts) -> Result<Counts, Finding>
    requires last_bound { last ≤ 4079 }
    requires last_in_bounds { word_at 512 last + 2 ≤ length img.now }
    requires last_in_bounds_2 { last < length marks.now }
    ensures { result ≡ marks_judged last (table_of last img.now) marks.now (Ok counts) }
{
    if let Some(c) = chaincheck::marks::first_in_two(marks, last) {
        return Err(Finding::SharedCluster(c));
    }
    if let Some(c) = chaincheck::marks::first_lost(img, marks, last) {
        return Err(Finding::LostCluster(c));
    }
    Ok(counts)
}

// Findings 5 to 7 and the counts, of a volume whose table has good values.
fn judge_chains(img: &[u8], k: Kind, tally: Tally) -> Result<Counts, Finding>
    requires usable { Usable k }
    requires k_in_bounds { 512 * first_data k ≤ length img.now }
    ensures { result ≡ chains_judged k img.now tally.free tally.bad tally.reserved }
{
    let last = k.last_cluster();
    let root = k.root_at();
    let count = k.root_entries();
    let bytes = k.cluster_bytes();
    let mut marks = [0u8; 4080];
    let mut left = [0u16; 4080];
    let visited = chaincheck::files::visit_files(
        img, &mut marks, &mut left, root, count, last, bytes,
    );
    let chains = visited.map_err(Finding::WrongChain)?;
    let counts = Counts {
        files: chains.files,
        free: tally.free,
        held: chains.held,
        bad: tally.bad,
        reserved: tally.reserved,
    };
    judge_marks(img, &marks, last, counts)
}

// All findings but the first, in their order.
fn judge(img: &[u8], k: Kind) -> Result<Counts, Finding>
    requires usable { Usable k }
    requires k_in_bounds { 512 * first_data k ≤ length img.now }
    ensures { result ≡ judged k img.now }
{
    if let Some(offset) = tablecheck::first_difference(img, k.copy_two(), 512 * k.fat) {
        return Err(Finding::CopiesDiffer(offset));
    }
    let census = tablecheck::take_census(img, k.last_cluster());
    let tally = census.map_err(Finding::BadValue)?;
    if let Some(slot) = slotcheck::first_bad(img, k.root_at(), k.root_entries()) {
        return Err(Finding::BadEntry(slot));
    }
    judge_chains(img, k, tally)
}

// Check of an image.
pub fn check(img: &[u8]) -> Result<Counts, Finding>
    ensures { Checked img.now result }
{
    let k = diskette::kind_of_image(img).ok_or(Finding::OfNoKind)?;
    judge(img, k)
}

// Check of a system area alone.
// (A line more than check: what both share is judge.)
pub fn check_system(area: &[u8]) -> Result<Counts, Finding>
    ensures { CheckedArea area.now result }
{
    let k = diskette::kind_of_area(area).ok_or(Finding::OfNoKind)?;
    judge(area, k)
}
