// The clusters of a file given back.
ghost use Rattle.std.specs.Prelude.{◌≡◌};
ghost use Rattle.calls.specs.Aids.Ready.{OnVolume};
ghost use Rattle.freeing.specs.Freed.{chain_freed};
ghost use Rattle.holding.specs.Aids.Files.{FileAt};

use diskette::Kind;

// Frees the clusters of the file whose entry starts at byte a, to the chain's end.
pub fn free_file(img: &mut [u8], k: Kind, a: usize)
    requires on_volume { OnVolume img.old k }
    requires file_at { FileAt k img.old a }
    ensures { img.new ≡ chain_freed k img.old a }
{
    let start = fields::start_at(img, a) as usize;
    links::free_chain(img, k.copy_two(), k.last_cluster(), start, k.clusters());
}
