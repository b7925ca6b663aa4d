// What the command for members asks beside the scale's calls (tools/member.h): plain numbers and an image in, one number out.
#![tactic(auto)]

pub mod clusters;

ghost use Rattle.std.specs.Prelude.{◌≡◌};
ghost use Rattle.stamps.specs.Stamps.{time_read, date_read};
ghost use Rattle.diskette.specs.Images.{kind_of_image};
ghost use Rattle.calls.specs.Numbers.{refusal_number};
ghost use Rattle.member.specs.Answers.{refusal_answer, standing_told, slot_told, date_told, time_told};

use calls::refusal::Refusal;
use directory::Standing;

// A refusal: its number in the upper 32 bits, the value 0.
pub fn refused(number: u32) -> u64
    ensures { result ≡ refusal_answer number }
{
    number as u64 * 4294967296
}

// The same, of a refusal of the calls.
pub fn refused_by(refusal: Refusal) -> u64
    ensures { result ≡ refusal_answer (refusal_number refusal) }
{
    refused(refusal.number())
}

// What an entry with that attribute stands for, as the number that C reads.
#[tactic(auto, unfolding(crate::specs::Answers::standing_told))]
fn standing_told(standing: Standing, attr: u8) -> u64
    ensures { result ≡ standing_told standing attr }
{
    match standing {
        Standing::NeverUsed | Standing::Erased => 1,
        Standing::Plain if directory::has_bit(attr, 0x10) => 4,
        Standing::Plain => 2,
        Standing::Label if attr == 0x0F => 5,
        Standing::Label => 3,
    }
}

// What stands at a slot of the root. Refused by 40 where the image is not of a kind.
pub fn member_slot(img: &[u8], slot: u32) -> u64
    ensures { result ≡ slot_told (kind_of_image img.now) img.now slot }
{
    let Some(k) = diskette::kind_of_image(img) else {
        return refused_by(Refusal::OfNoKind);
    };
    let s = slot as usize;
    if k.root_entries() <= s {
        return 0;
    }
    let a = k.slot_at(s);
    standing_told(directory::standing_at(img, a), fields::attr_at(img, a))
}

// Year, month and day of a stored date word. Refused by 43 where they are out of their ranges.
pub fn member_date(word: u32) -> u64
    ensures { result ≡ date_told (date_read word) }
{
    let Ok(word) = u16::try_from(word) else {
        return refused_by(Refusal::OutOfRange);
    };
    match stamps::read_date(word) {
        Some((year, month, day)) => {
            (1980 + year as u64) * 10000 + month as u64 * 100 + day as u64
        }
        None => refused_by(Refusal::OutOfRange),
    }
}

// Hour, minute and second of a stored time word. Refused by 43 where they are out of their ranges.
pub fn member_time(word: u32) -> u64
    ensures { result ≡ time_told (time_read word) }
{
    let Ok(word) = u16::try_from(word) else {
        return refused_by(Refusal::OutOfRange);
    };
    match stamps::read_time(word) {
        Some((hour, minute, step)) => {
            hour as u64 * 10000 + minute as u64 * 100 + step as u64 * 2
        }
        None => refused_by(Refusal::OutOfRange),
    }
}
