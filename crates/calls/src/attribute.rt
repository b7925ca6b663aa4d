// Attributes that a caller may set.
ghost use Rattle.std.specs.Prelude.{◌≡◌};
ghost use Rattle.calls.specs.Refusals.{bad_attr};

// Whether the number has another bit than 01, 02, 04 and 20.
pub fn is_bad_attr(attr: u32) -> bool
    ensures { result ≡ bad_attr attr }
{
    if attr == attr % 8 + attr / 32 % 2 * 32 {
        false
    } else {
        true
    }
}
