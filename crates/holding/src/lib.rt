// What a file of a volume holds, its clusters and its bytes: as definitions and laws, but for how far its chain goes.
#![tactic(auto)]

ghost use Rattle.std.specs.Prelude.{◌+◌, ◌≤◌, ◌≡◌, length};
ghost use Rattle.diskette.specs.Images.{kind_of_image};
ghost use Rattle.links.specs.Aids.Extent.{extent_of};
ghost use Rattle.holding.specs.Holding.{file_chain};

use diskette::Kind;
use links::Extent;

// How far the chain goes of the file whose entry starts at byte a. The volume need not be sound.
pub fn extent_at(img: &[u8], k: Kind, a: usize) -> Extent
    requires img_value { kind_of_image img.now ≡ Some k }
    requires a_in_bounds { a + 32 ≤ length img.now }
    ensures { result ≡ extent_of (file_chain k img.now a) }
{
    let start = fields::start_at(img, a) as usize;
    links::extent_of(img, k.last_cluster(), start)
}
