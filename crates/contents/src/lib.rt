// The bytes of a file along its chain: put, zeroed, fetched, and where they lie. Each loop goes cluster by cluster.
#![tactic(auto)]

ghost use Rattle.std.specs.Prelude.{◌≡◌, ◌+◌, ◌*◌, ◌/◌, ◌%◌, ◌≤◌, ◌<◌, length, MatchOption};
ghost use Rattle.image.specs.Store.{stored, part};
ghost use Rattle.chains.specs.Aids.Steps.{followed};
ghost use Rattle.chains.specs.Content.{cluster_begin};
ghost use Rattle.table.specs.Entries.{word_at, table_of};
ghost use Rattle.contents.specs.Aids.Contents.{chain_from, Area, fetched, bytes_put, zeros_put, place_of};
ghost use Rattle.contents.specs.Aids.Loops.{run_of, runs_at, Ready, Ran};

use image::{copy_in, fill};

// The cluster that holds byte pos of the chain.
fn cluster_holding(img: &[u8], cb: usize, last: usize, start: usize, pos: usize) -> usize
    requires cb_nonzero { 0 < cb }
    requires last_bound { last ≤ 4079 }
    requires last_in_bounds { word_at 512 last + 2 ≤ length img.now }
    ensures { result ≡ followed (table_of last img.now) (pos / cb) start }
{
    let mut cluster = start;
    for _ in 0..pos / cb {
        cluster = links::value_of(img, last, cluster);
    }
    cluster
}

// How many of left bytes from byte p of a chain on lie in one cluster: byte p, and those behind it.
fn run_of(cb: usize, p: usize, left: usize) -> usize
    requires { 0 < cb }
    ensures { result ≡ run_of cb p left }
{
    (cb - p % cb).min(left)
}

// Where byte p of a chain lies, if it is in that cluster.
pub fn byte_in(base: usize, cb: usize, cluster: usize, p: usize) -> usize
    requires cb_nonzero { 0 < cb }
    requires le_cluster { 2 ≤ cluster }
    requires cb_bound { cluster_begin base cb cluster + cb < 18446744073709551616 }
    ensures { result ≡ cluster_begin base cb cluster + p % cb }
{
    base + (cluster - 2) * cb + p % cb
}

// Where byte pos of the chain lies.
pub fn place_of(img: &[u8], base: usize, cb: usize, last: usize, start: usize, pos: usize) -> usize
    requires area { Area base cb last (length img.now) }
    requires pos_in_bounds { pos < length (chain_from last img.now start) * cb }
    ensures { result ≡ place_of base cb last img.now start pos }
{
    byte_in(base, cb, cluster_holding(img, cb, last, start, pos), pos)
}

// Stores n bytes of src, from its byte from on, at byte at of s.
fn copy_part(s: &mut [u8], at: usize, src: &[u8], from: usize, n: usize)
    requires n_in_bounds { at + n ≤ length s.old }
    requires n_in_bounds_2 { from + n ≤ length src.now }
    ensures { s.new ≡ stored s.old at (part src.now from n) }
{
    copy_in(s, at, &src[from..from + n]);
}

// The runs of n bytes of a chain, from its byte pos on: done of the bytes are dealt with, and cluster holds the next one.
#[derive(Clone, Copy)]
struct Runs {
    base: usize,
    cb: usize,
    last: usize,
    pos: usize,
    n: usize,
    cluster: usize,
    done: usize,
}

// One run, the bytes that lie in one cluster: len of them from byte at of the image on, done others before them.
#[derive(Clone, Copy)]
struct Run {
    done: usize,
    at: usize,
    len: usize,
}

impl Runs {
    fn new(
        img: &[u8],
        base: usize,
        cb: usize,
        last: usize,
        start: usize,
        pos: usize,
        n: usize,
    ) -> Runs
        requires cb_nonzero { 0 < cb }
        requires last_bound { last ≤ 4079 }
        requires last_in_bounds { word_at 512 last + 2 ≤ length img.now }
        ensures { result ≡ runs_at base cb last pos n (followed (table_of last img.now) (pos / cb) start) 0 }
    {
        let cluster = cluster_holding(img, cb, last, start, pos);
        Runs {
            base,
            cb,
            last,
            pos,
            n,
            cluster,
            done: 0,
        }
    }

    // The next run, where there is one.
    fn next_run(&mut self, img: &[u8]) -> Option<Run>
        requires { Ready self.old (length img.now) }
        ensures { MatchOption result (self.old.n ≤ self.old.done) (λ r. Ran self.old img.now r self.new) }
    {
        if self.n <= self.done {
            return None;
        }
        let next = self.pos + self.done;
        let run = Run {
            done: self.done,
            at: byte_in(self.base, self.cb, self.cluster, next),
            len: run_of(self.cb, next, self.n - self.done),
        };
        self.cluster = links::value_of(img, self.last, self.cluster);
        self.done += run.len;
        Some(run)
    }
}

// Puts the bytes of src into the chain, from its byte pos on.
pub fn pour(
    img: &mut [u8],
    base: usize,
    cb: usize,
    last: usize,
    start: usize,
    pos: usize,
    src: &[u8],
)
    requires area { Area base cb last (length img.old) }
    requires src_in_bounds { pos + length src.now ≤ length (chain_from last img.old start) * cb }
    ensures { img.new ≡ bytes_put base cb last img.old start pos src.now }
{
    let mut runs = Runs::new(img, base, cb, last, start, pos, src.len());
    while let Some(run) = runs.next_run(img) {
        copy_part(img, run.at, src, run.done, run.len);
    }
}

// Puts n zeros into the chain, from its byte pos on.
pub fn pour_zeros(
    img: &mut [u8],
    base: usize,
    cb: usize,
    last: usize,
    start: usize,
    pos: usize,
    n: usize,
)
    requires area { Area base cb last (length img.old) }
    requires n_in_bounds { pos + n ≤ length (chain_from last img.old start) * cb }
    ensures { img.new ≡ zeros_put base cb last img.old start pos n }
{
    let mut runs = Runs::new(img, base, cb, last, start, pos, n);
    while let Some(run) = runs.next_run(img) {
        fill(img, run.at, run.len, 0);
    }
}

// Copies n bytes of the chain, from its byte pos on, to the front of out.
pub fn fetch(
    img: &[u8],
    base: usize,
    cb: usize,
    last: usize,
    start: usize,
    pos: usize,
    out: &mut [u8],
    n: usize,
)
    requires area { Area base cb last (length img.now) }
    requires n_in_bounds { pos + n ≤ length (chain_from last img.now start) * cb }
    requires n_in_bounds_2 { n ≤ length out.old }
    ensures { out.new ≡ stored out.old 0 (fetched base cb last img.now start pos n) }
{
    let mut runs = Runs::new(img, base, cb, last, start, pos, n);
    while let Some(run) = runs.next_run(img) {
        copy_part(out, run.done, img, run.at, run.len);
    }
}
