// The words of a stamp as text.
ghost use Rattle.std.specs.Prelude.{◌+◌, ◌*◌, length};
ghost use Rattle.text.specs.Aids.Pages.{AddsIn, has_room};
ghost use Rattle.text.specs.Stamps.{marked_text, three_text, date_text, time_text};

use crate::digits;
use crate::page::{Page, Shown};

// A mark and a number in two digits.
fn put_marked(page: &mut Page, mark: &[u8], n: usize)
    requires { has_room (length mark.now + 2) page.old }
    ensures { AddsIn (length mark.now + 2) (marked_text mark.now n) page.old page.new }
{
    page.put_bytes(mark);
    digits::put_digits(page, 10, 2, n);
}

// Three numbers with a mark between them: the first in count digits, the others in two.
fn put_three(page: &mut Page, mark: &[u8], count: usize, a: usize, b: usize, c: usize)
    requires { has_room (count + (length mark.now + 2) * 2) page.old }
    ensures { AddsIn (count + (length mark.now + 2) * 2) (three_text count mark.now a b c) page.old page.new }
{
    digits::put_digits(page, 10, count, a);
    put_marked(page, mark, b);
    put_marked(page, mark, c);
}

// Year, month and day of a date word.
#[derive(Clone, Copy)]
pub struct DateWord(pub u16);

impl Shown for DateWord {
    ghost text = { λ w. date_text w.0 };

    ghost room = { 10 };

    fn put(self, page: &mut Page) {
        match stamps::read_date(self.0) {
            Some((year, month, day)) => put_three(
                page,
                b"-",
                4,
                1980 + year as usize,
                month as usize,
                day as usize,
            ),
            None => page.put_bytes(b"none"),
        }
    }
}

// Hour, minute and second of a time word.
#[derive(Clone, Copy)]
pub struct TimeWord(pub u16);

impl Shown for TimeWord {
    ghost text = { λ w. time_text w.0 };

    ghost room = { 8 };

    fn put(self, page: &mut Page) {
        match stamps::read_time(self.0) {
            Some((hour, minute, step)) => put_three(
                page,
                b":",
                2,
                hour as usize,
                minute as usize,
                step as usize * 2,
            ),
            None => page.put_bytes(b"none"),
        }
    }
}
