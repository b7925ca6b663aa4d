// Find.
ghost use Rattle.std.specs.Prelude.{◌+◌, ◌≤◌, ◌<◌, ◌≡◌, length};
ghost use Rattle.diskette.specs.Places.{root_entries, slot_at};
ghost use Rattle.calls.specs.Aids.Ready.{OnVolume};
ghost use Rattle.matching.specs.Find.{bit_shows, shown_by, is_match, match_from, Finds};

use calls::make_ready;
use calls::refusal::Refusal;
use diskette::Kind;

// Whether the bit of worth b, a power of two, is no bit of the file or one of the mask.
fn bit_shows(mask: u32, attr: u8, b: u8) -> bool
    requires { 0 < b }
    ensures { result ≡ bit_shows mask attr b }
{
    !directory::has_bit(attr, b) || mask / u32::from(b) % 2 == 1
}

// Whether the mask has what hidden and system files need to show.
#[tactic(auto, unfolding(crate::specs::Find::shown_by))]
fn is_shown(mask: u32, attr: u8) -> bool
    ensures { result ≡ shown_by mask attr }
{
    bit_shows(mask, attr, 0x02) && bit_shows(mask, attr, 0x04)
}

// Whether the entry is a plain file that shows and whose name matches.
#[tactic(auto, unfolding(crate::specs::Find::is_match))]
fn is_match(img: &[u8], a: usize, pattern: [u8; 11], mask: u32) -> bool
    requires { a + 32 ≤ length img.now }
    ensures { result ≡ is_match img.now a pattern mask }
{
    directory::plain_at(img, a)
        && is_shown(mask, fields::attr_at(img, a))
        && patterns::matches_at(img, a, pattern)
}

// The first match at or after a slot.
fn first_match(img: &[u8], k: Kind, pattern: [u8; 11], mask: u32, from: usize) -> Option<usize>
    requires { OnVolume img.now k }
    ensures { result ≡ match_from img.now (slot_at k) (root_entries k) pattern mask from }
{
    (from..k.root_entries()).find(|&slot| is_match(img, k.slot_at(slot), pattern, mask))
}

// Finds a file of a volume that is ready.
fn find_on(img: &[u8], k: Kind, s: &[u8], slot: u32, mask: u32) -> Result<u32, Refusal>
    requires { OnVolume img.now k }
    ensures { Finds img.now s.now slot mask result }
{
    let pattern = patterns::pattern_given(s).ok_or(Refusal::BreaksRules)?;
    let found = first_match(img, k, pattern, mask, slot as usize).ok_or(Refusal::NoMoreFiles)?;
    Ok(found as u32)
}

pub fn find(img: &[u8], pattern: &[u8], slot: u32, mask: u32) -> Result<u32, Refusal>
    ensures { Finds img.now pattern.now slot mask result }
{
    let (k, _) = make_ready(img)?;
    find_on(img, k, pattern, slot, mask)
}
