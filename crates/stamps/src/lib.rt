// Stamps: six numbers of a caller, the two words that a directory entry holds, and back.
#![tactic(auto)]

ghost use Rattle.std.specs.Prelude.{◌≡◌, ℕ, ◌<◌};
ghost use Rattle.stamps.specs.Stamps.{time_fits, date_fits, TimeInRange, DateInRange, time_word, date_word, packed, time_read, date_read};

// A caller's stamp: any numbers. Steps are of two seconds, years count from 1980.
#[derive(Clone, Copy)]
pub struct Stamp {
    pub hour: u32,
    pub minute: u32,
    pub step: u32,
    pub year: u32,
    pub month: u32,
    pub day: u32,
}

// Whether hour, minute and two-second step are in their ranges.
#[tactic(auto, unfolding(crate::specs::Stamps::time_fits))]
pub fn time_fits(hour: u32, minute: u32, step: u32) -> bool
    ensures { result ≡ time_fits hour minute step }
{
    hour <= 23 && minute <= 59 && step <= 29
}

// Whether year, month and day are in their ranges.
#[tactic(auto, unfolding(crate::specs::Stamps::date_fits))]
pub fn date_fits(year: u32, month: u32, day: u32) -> bool
    ensures { result ≡ date_fits year month day }
{
    year <= 119 && (1..=12).contains(&month) && (1..=31).contains(&day)
}

// The time word: 5, 6 and 5 bits, the hour highest.
fn time_word(hour: u32, minute: u32, step: u32) -> u16
    requires { TimeInRange hour minute step }
    ensures { result ≡ time_word hour minute step }
{
    (hour * 2048 + minute * 32 + step) as u16
}

// The date word: 7, 4 and 5 bits, the year highest.
fn date_word(year: u32, month: u32, day: u32) -> u16
    requires { DateInRange year month day }
    ensures { result ≡ date_word year month day }
{
    (year * 512 + month * 32 + day) as u16
}

impl Stamp {
    // The time word and the date word, where all six numbers are in their ranges.
    #[tactic(auto, using(crate::proofs::Laws::Ranges::time_in_range, crate::proofs::Laws::Ranges::date_in_range), unfolding(crate::specs::Stamps::packed))]
    pub fn pack(self) -> Option<(u16, u16)>
        ensures { result ≡ packed self }
    {
        if !time_fits(self.hour, self.minute, self.step)
            || !date_fits(self.year, self.month, self.day)
        {
            return None;
        }
        Some((
            time_word(self.hour, self.minute, self.step),
            date_word(self.year, self.month, self.day),
        ))
    }
}

// Hour, minute and two-second step of a time word, where they are in their ranges.
#[tactic(auto, unfolding(crate::specs::Stamps::time_read))]
pub fn read_time(word: u16) -> Option<(u16, u16, u16)>
    ensures { result ≡ time_read word }
{
    let hour = word / 2048;
    let minute = word / 32 % 64;
    let step = word % 32;
    time_fits(hour.into(), minute.into(), step.into()).then_some((hour, minute, step))
}

// Year from 1980, month and day of a date word, where they are in their ranges.
#[tactic(auto, unfolding(crate::specs::Stamps::date_read))]
pub fn read_date(word: u16) -> Option<(u16, u16, u16)>
    ensures { result ≡ date_read word }
{
    let year = word / 512;
    let month = word / 32 % 16;
    let day = word % 32;
    date_fits(year.into(), month.into(), day.into()).then_some((year, month, day))
}
