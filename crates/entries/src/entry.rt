// Entry at a slot: what stands there, on any image of a kind, sound or not.
ghost use Rattle.std.specs.Prelude.{cond, not, Some, None, ◌≡◌, ◌+◌, ◌≤◌, length};
ghost use Rattle.directory.specs.Slots.{standing_of, is_vacant};
ghost use Rattle.entries.specs.Entry.{as_stored, Told};

use crate::EntryFields;
use calls::refusal::Refusal;
use directory::Standing;

// The fields of the entry at byte a.
fn fields_at(img: &[u8], a: usize) -> EntryFields
    requires { a + 32 ≤ length img.now }
    ensures { result ≡ as_stored img.now a }
{
    EntryFields {
        name: fields::name_at(img, a),
        attr: fields::attr_at(img, a),
        time: fields::time_at(img, a),
        date: fields::date_at(img, a),
        start: fields::start_at(img, a),
        size: fields::size_at(img, a),
    }
}

// Whether an entry is told of: not where the slot is erased or never used; for the label too.
fn is_told(standing: Standing) -> bool
    ensures { result ≡ not (is_vacant standing) }
{
    matches!(standing, Standing::Label | Standing::Plain)
}

// The entry in the slot at byte a, where one is told of.
fn told_at(img: &[u8], a: usize) -> Option<EntryFields>
    requires { a + 32 ≤ length img.now }
    ensures { result ≡ cond (is_vacant (standing_of img.now a)) None (Some (as_stored img.now a)) }
{
    if is_told(directory::standing_at(img, a)) {
        Some(fields_at(img, a))
    } else {
        None
    }
}

// The entry at a slot of the root. Refused by 40 where the image is not of a kind.
pub fn entry(img: &[u8], slot: u32) -> Result<Option<EntryFields>, Refusal>
    ensures { Told img.now slot result }
{
    let k = diskette::kind_of_image(img).ok_or(Refusal::OfNoKind)?;
    let s = slot as usize;
    if k.root_entries() <= s {
        return Ok(None);
    }
    Ok(told_at(img, k.slot_at(s)))
}
