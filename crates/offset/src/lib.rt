// A signed 32-bit offset added to an unsigned 32-bit number: the arithmetic of seek.
#![tactic(auto)]

ghost use Rattle.std.specs.Prelude.{◌≡◌};
ghost use Rattle.offset.specs.Offset.{moved_by};

// The number that lies offset away from base, where it is one of 32 bits.
#[tactic(auto, unfolding(crate::specs::Offset::moved_by))]
pub fn moved_by(base: u32, offset: i32) -> Option<u32>
    ensures { result ≡ moved_by base offset }
{
    base.checked_add_signed(offset)
}
