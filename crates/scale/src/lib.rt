// The calls as the scale's C program sees them (include/balladmoor.h): plain numbers and byte slices in, one number out.
#![tactic(auto)]

pub mod files;
pub mod put;

ghost use Rattle.std.specs.Prelude.{[]};
ghost use Rattle.formatting.specs.Format.{formatted};
ghost use Rattle.scale.specs.Calls.{Leaves, check_call, check_system_call, free_space_call, entry_call};
ghost use Rattle.scale.specs.Aids.Fits.{VerdictFits};
ghost use Rattle.scale.specs.Aids.Tells.{TellsVerdict, TellsSpace, TellsEntry};

use calls::refusal::Refusal;
use packing::answer::{hand, pack};
use sound::{Counts, Finding};

// Makes a blank volume of the kind.
pub fn bm_format(img: &mut [u8], kind: u32) -> u64
    ensures { Leaves (formatted kind img.old) result img.new [] [] }
{
    hand(formatting::format::format(img, kind).map(|_| 0))
}

// A verdict as check answers it: the counts in out where the volume is sound, else the finding and its place.
fn tell_verdict(v: Result<Counts, Finding>, out: &mut [u8]) -> u64
    requires { VerdictFits v }
    ensures { TellsVerdict v out.old result out.new }
{
    match v {
        Ok(n) => {
            put::words(out, &[n.files, n.free, n.held, n.bad, n.reserved]);
            pack(0, 0)
        }
        Err(finding) => pack(finding.number() as u32, finding.place() as u32),
    }
}

// Judges a whole image.
#[tactic(auto, using(crate::proofs::Laws::Calls::check_leaves, crate::proofs::Laws::Fits::check_fits))]
pub fn bm_check(img: &[u8], out: &mut [u8]) -> u64
    ensures { Leaves (check_call img.now out.old) result img.now [] out.new }
{
    tell_verdict(sound::check(img), out)
}

// Judges a system area alone.
#[tactic(auto, using(crate::proofs::Laws::Calls::area_leaves, crate::proofs::Laws::Fits::area_fits))]
pub fn bm_check_system(area: &[u8], out: &mut [u8]) -> u64
    ensures { Leaves (check_system_call area.now out.old) result area.now [] out.new }
{
    tell_verdict(sound::check_system(area), out)
}

// Puts the four numbers of free space into out, unless it is refused: the value is the free clusters.
fn put_space(img: &[u8], out: &mut [u8]) -> Result<u32, Refusal>
    ensures { TellsSpace img.now out.old result out.new }
{
    let space = freespace::free_space::free_space(img)?;
    put::words(out, &[space.free, space.clusters, space.sector, space.per]);
    Ok(space.free as u32)
}

// Counts the free clusters of a sound volume.
#[tactic(auto, using(crate::proofs::Laws::Calls::space_leaves))]
pub fn bm_free_space(img: &[u8], out: &mut [u8]) -> u64
    ensures { Leaves (free_space_call img.now out.old) result img.now [] out.new }
{
    hand(put_space(img, out))
}

// Puts the fields of the entry at a slot into out, where there is an entry: the value says whether there is.
fn put_entry(img: &[u8], slot: u32, out: &mut [u8]) -> Result<u32, Refusal>
    ensures { TellsEntry img.now slot out.old result out.new }
{
    match entries::entry::entry(img, slot)? {
        Some(e) => {
            put::entry_fields(out, e);
            Ok(1)
        }
        None => Ok(0),
    }
}

// Gives the directory entry at a slot of the root.
#[tactic(auto, using(crate::proofs::Laws::Calls::entry_leaves))]
pub fn bm_entry(img: &[u8], slot: u32, out: &mut [u8]) -> u64
    ensures { Leaves (entry_call img.now slot out.old) result img.now [] out.new }
{
    hand(put_entry(img, slot, out))
}
