// The listing (crate listing), exported for C.
#![tactic(auto)]

ghost use Rattle.listing.specs.Listing.{Lists};

// The listing put into a buffer: how many bytes it has. Into a buffer of fewer than 16,384 bytes nothing is put, and the answer is 0.
#[unsafe(no_mangle)]
pub extern "C" fn listing_put(area: &[u8], out: &mut [u8]) -> usize
    ensures { Lists area.now out.old result out.new }
{
    listing::listing_put(area, out)
}
