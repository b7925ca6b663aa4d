// The one number that a call answers.
ghost use Rattle.calls.specs.Answers.{number_told, value_told};
ghost use Rattle.packing.specs.Aids.Packing.{Packs};

use calls::refusal::Refusal;

// The refusal number in the upper 32 bits, the value in the lower.
pub fn pack(number: u32, value: u32) -> u64
    ensures { Packs number value result }
{
    let upper = number as u64;
    let lower = value as u64;
    upper * 4294967296 + lower
}

// The same of a call's answer: a refusal has the value 0, and a call that ends well the number 0.
pub fn hand(a: Result<u32, Refusal>) -> u64
    ensures { Packs (number_told a) (value_told a) result }
{
    match a {
        Ok(value) => pack(0, value),
        Err(refusal) => pack(refusal.number(), 0),
    }
}
