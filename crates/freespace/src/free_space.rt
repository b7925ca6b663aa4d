// Free space: how many clusters of a sound volume are free, and how large they are.
ghost use Rattle.std.specs.Prelude.{◌≡◌};
ghost use Rattle.diskette.specs.Aids.Usable.{Usable};
ghost use Rattle.freespace.specs.FreeSpace.{space_with, Spaced};

use crate::Space;
use calls::make_ready;
use calls::refusal::Refusal;
use diskette::Kind;

// The answer for a volume of the kind with so many free clusters.
fn space_with(k: Kind, free: usize) -> Space
    requires { Usable k }
    ensures { result ≡ space_with k free }
{
    Space {
        free,
        clusters: k.clusters(),
        sector: 512,
        per: k.per,
    }
}

// The free clusters of an image. Refused by 40 where it is not of a kind, by 41 where the volume is not sound.
pub fn free_space(img: &[u8]) -> Result<Space, Refusal>
    ensures { Spaced img.now result }
{
    let (k, free) = make_ready(img)?;
    Ok(space_with(k, free))
}
