// What the calls on a volume and an open table have in common.
#![tactic(auto)]

pub mod attribute;
pub mod files;
pub mod refusal;

ghost use Rattle.std.specs.Prelude.{◌≡◌};
ghost use Rattle.calls.specs.Aids.Ready.{ready_of};

use diskette::Kind;
use refusal::Refusal;

// What every call does first: refused by 40 or 41, else the kind and how many clusters are free.
pub fn make_ready(img: &[u8]) -> Result<(Kind, usize), Refusal>
    ensures { result ≡ ready_of img.now }
{
    let k = diskette::kind_of_image(img).ok_or(Refusal::OfNoKind)?;
    match sound::check(img) {
        Ok(counts) => Ok((k, counts.free)),
        Err(_) => Err(Refusal::Unsound),
    }
}
