// A caller's stamp.
ghost use Rattle.std.specs.Prelude.{◌≡◌};
ghost use Rattle.packing.specs.Stamps.{stamp_of};

use stamps::Stamp;

// The six numbers of a caller's stamp.
pub fn stamp(hour: u32, minute: u32, step: u32, year: u32, month: u32, day: u32) -> Stamp
    ensures { result ≡ stamp_of hour minute step year month day }
{
    Stamp {
        hour,
        minute,
        step,
        year,
        month,
        day,
    }
}
