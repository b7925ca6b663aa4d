// An entry of the table as a number: its part of three bytes, and what it means.
#![tactic(auto)]

ghost use Rattle.std.specs.Prelude.{true, false, ◌≡◌, ◌+◌, ◌*◌, ◌/◌, ◌%◌, ◌<◌};
ghost use Rattle.values.specs.Bits.{taken, kept};
ghost use Rattle.values.specs.Values.{meaning_of};

// Three bytes, low, middle and high, hold two entries. The first is the low byte and the low half of the middle one, the second
// the high half of the middle byte and the high one. A half is one hexadecimal digit: 03 40 00 holds 003 and 004.
// (The two have functions of their own: their formulas have nothing in common.)

// The first entry.
#[tactic(auto, using(crate::proofs::Laws::Triples::first_taken))]
pub fn first_of(low: u8, middle: u8) -> u16
    ensures { result ≡ taken true (low + 256 * middle) }
{
    low as u16 + middle as u16 % 16 * 256
}

// The second entry.
#[tactic(auto, using(crate::proofs::Laws::Triples::second_taken))]
pub fn second_of(middle: u8, high: u8) -> u16
    ensures { result ≡ taken false (middle + 256 * high) }
{
    middle as u16 / 16 + high as u16 * 16
}

// The middle byte with v as the first entry: its high half stays. (In that entry's word it is the high byte.)
#[tactic(auto, using(crate::proofs::Laws::Triples::first_middle))]
pub fn middle_for_first(middle: u8, v: u16) -> u8
    requires { v < 4096 }
    ensures { result ≡ kept true (256 * middle) v / 256 }
{
    middle / 16 * 16 + (v / 256) as u8
}

// The middle byte with v as the second entry: its low half stays. (In that entry's word it is the low byte.)
#[tactic(auto, using(crate::proofs::Laws::Triples::second_middle))]
pub fn middle_for_second(middle: u8, v: u16) -> u8
    requires { v < 4096 }
    ensures { result ≡ kept false middle v % 256 }
{
    middle % 16 + (v % 16) as u8 * 16
}

// What a value means.
#[derive(Clone, Copy)]
pub enum Meaning {
    Free,
    Next(usize),
    Bad,
    Reserved,
    End,
    NoneOfThese,
}

// (A match by ranges costs more where a chain ends.)
#[tactic(auto, unfolding(crate::specs::Values::meaning_of))]
pub fn meaning_of(v: u16, last: usize) -> Meaning
    ensures { result ≡ meaning_of last v }
{
    if v < 2 {
        if v == 0 {
            Meaning::Free
        } else {
            Meaning::NoneOfThese
        }
    } else if v as usize <= last {
        Meaning::Next(v as usize)
    } else if 0xFF8 <= v {
        Meaning::End
    } else if v == 0xFF7 {
        Meaning::Bad
    } else if 0xFF0 <= v {
        Meaning::Reserved
    } else {
        Meaning::NoneOfThese
    }
}
