// Open, once it is known which place is free.
ghost use Rattle.std.specs.Prelude.{◌≡◌};
ghost use Rattle.single.specs.Aids.OpenAt.{spare_for, OpensAt};

use crate::held;
use calls::refusal::Refusal;
use records::OpenRecord;

// The record of the one place that open is tried on: a free one, or a used one where none is free.
fn spare(free: Option<usize>) -> OpenRecord
    ensures { result ≡ spare_for free }
{
    OpenRecord {
        used: free.is_none(),
        ..OpenRecord::default()
    }
}

// Opens with this place free: the place, and the record that it makes.
pub fn open_at(
    img: &[u8],
    free: Option<usize>,
    s: &[u8],
    access: u32,
) -> Result<(usize, OpenRecord), Refusal>
    ensures { OpensAt img.now free s.now access result }
{
    let done = held::open(img, spare(free), s, access);
    done.answer?;
    Ok((free.unwrap_or(0), done.held))
}
