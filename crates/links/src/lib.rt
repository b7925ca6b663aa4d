// Chains in the table of an image: freed, followed, made longer. Each function tests the numbers that it goes by, so that
// none needs a sound volume.
#![tactic(auto)]

ghost use Rattle.std.specs.Prelude.{◌≡◌, ◌+◌, ◌-◌, ◌≤◌, ◌<◌, length, unwrap_or, IfSome};
ghost use Rattle.chains.specs.Chain.{clusters_from};
ghost use Rattle.table.specs.Entries.{word_at, table_of};
ghost use Rattle.table.specs.Aids.Copies.{Reaches};
ghost use Rattle.links.specs.Aids.Freed.{freed_from};
ghost use Rattle.links.specs.Aids.Extent.{extent_of};
ghost use Rattle.links.specs.Linked.{linked_to};
ghost use Rattle.links.specs.Aids.Linked.{next_free, Added};

use table::{entry, set_entry};

// How far a chain goes: how many clusters it has, and which is the last, 0 where it has none.
#[derive(Clone, Copy)]
pub struct Extent {
    pub clusters: usize,
    pub end: usize,
}

// Frees up to n clusters of the chain that starts at start.
pub fn free_chain(img: &mut [u8], second: usize, last: usize, start: usize, n: usize)
    requires last_bound { last ≤ 4079 }
    requires reaches { Reaches second img.old last }
    ensures { img.new ≡ freed_from second last img.old n start }
{
    let mut cluster = start;
    for _ in 0..n {
        if !(2..=last).contains(&cluster) {
            return;
        }
        let next = usize::from(entry(img, cluster));
        set_entry(img, second, cluster, 0);
        cluster = next;
    }
}

// The value of a cluster's entry, 0 where there is no such cluster.
// (0 and not an Option, as the definition of the table has it.)
pub fn value_of(img: &[u8], last: usize, cluster: usize) -> usize
    requires last_bound { last ≤ 4079 }
    requires last_in_bounds { word_at 512 last + 2 ≤ length img.now }
    ensures { result ≡ table_of last img.now cluster }
{
    if (2..=last).contains(&cluster) {
        usize::from(entry(img, cluster))
    } else {
        0
    }
}

// How far the chain that starts at start goes, over no more clusters than the volume has.
pub fn extent_of(img: &[u8], last: usize, start: usize) -> Extent
    requires last_bound { last ≤ 4079 }
    requires last_in_bounds { word_at 512 last + 2 ≤ length img.now }
    ensures { result ≡ extent_of (clusters_from last (table_of last img.now) (last - 1) start) }
{
    let mut extent = Extent {
        clusters: 0,
        end: 0,
    };
    let mut cluster = start;
    for clusters in 1..last {
        if !(2..=last).contains(&cluster) {
            break;
        }
        extent = Extent {
            clusters,
            end: cluster,
        };
        cluster = usize::from(entry(img, cluster));
    }
    extent
}

// The lowest free cluster from cluster from on.
fn next_free(img: &[u8], last: usize, from: usize) -> Option<usize>
    requires last_bound { last ≤ 4079 }
    requires last_in_bounds { word_at 512 last + 2 ≤ length img.now }
    requires le_from { 2 ≤ from }
    ensures value { unwrap_or result 0 ≡ next_free last img.now from }
    ensures is_cluster { IfSome result (λ c. (2 ≤ c) × (c ≤ last)) }
{
    (from..last + 1).find(|cluster| entry(img, *cluster) == 0)
}

// Makes new the cluster behind prev; where prev is 0 it is a chain's first.
fn link_to(img: &mut [u8], second: usize, prev: usize, new: usize)
    requires prev_bound { prev ≤ 4079 }
    requires bound { new ≤ 4079 }
    requires reaches { Reaches second img.old prev }
    requires reaches_2 { Reaches second img.old new }
    ensures { img.new ≡ linked_to second img.old prev new }
{
    set_entry(img, second, new, 0xFFF);
    if prev != 0 {
        set_entry(img, second, prev, new as u16);
    }
}

// Adds n clusters behind prev, the lowest free one each time, and answers the first of them. The table is gone through once:
// below the last one found none is free.
pub fn add_clusters(img: &mut [u8], second: usize, last: usize, prev: usize, n: usize) -> usize
    requires last_bound { last ≤ 4079 }
    requires reaches { Reaches second img.old last }
    requires prev_le_last { prev ≤ last }
    ensures { Added second last img.old prev n result img.new }
{
    // 0 and not None where there is none yet: an Option was measured, and takes two instructions more for each cluster.
    let mut first = 0;
    let mut end = prev;
    let mut from = 2;
    for _ in 0..n {
        let Some(new) = next_free(img, last, from) else {
            break;
        };
        link_to(img, second, end, new);
        if first == 0 {
            first = new;
        }
        end = new;
        from = new + 1;
    }
    first
}
