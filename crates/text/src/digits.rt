// Numbers as text.
ghost use Rattle.std.specs.Prelude.{◌≡◌, ◌+◌, ◌<◌, ◌≤◌, length};
ghost use Rattle.image.specs.Store.{stored};
ghost use Rattle.text.specs.Aids.Pages.{AddsIn, has_room};
ghost use Rattle.text.specs.Digits.{digit_sign, in_digits, width, decimal, hex};

use crate::page::{Page, Shown};

// The sign of a digit.
fn sign(d: usize) -> u8
    requires { d < 16 }
    ensures { result ≡ digit_sign d }
{
    let small = d as u8;
    if small < 10 {
        b'0' + small
    } else {
        b'A' + (small - 10)
    }
}

// Stores the last digits of n in a base, so many from byte at on: the last of them first.
// (A buffer and a place, not a page, so that the facts of the loop are about bytes alone.)
pub fn store_digits(out: &mut [u8], at: usize, base: usize, count: usize, n: usize)
    requires is_base { (1 < base) × (base ≤ 16) }
    requires room { at + count ≤ length out.old }
    ensures { out.new ≡ stored out.old at (in_digits base count n) }
{
    let mut rest = n;
    for i in (0..count).rev() {
        out[at + i] = sign(rest % base);
        rest /= base;
    }
}

// The last digits of n in a base.
pub fn put_digits(page: &mut Page, base: usize, count: usize, n: usize)
    requires is_base { (1 < base) × (base ≤ 16) }
    requires room { has_room count page.old }
    ensures { AddsIn count (in_digits base count n) page.old page.new }
{
    page.put_digits(base, count, n);
}

// How many decimal digits n has.
fn digit_count(n: usize) -> usize
    ensures { result ≡ width n }
{
    n.max(1).ilog10() as usize + 1
}

// A decimal number without leading zeros.
impl Shown for usize {
    ghost text = { decimal };

    ghost room = { 20 };

    fn put(self, page: &mut Page) {
        put_digits(page, 10, digit_count(self), self);
    }
}

// A byte in two hex digits.
#[derive(Clone, Copy)]
pub struct Hex(pub u8);

impl Shown for Hex {
    ghost text = { λ h. hex h.0 };

    ghost room = { 2 };

    fn put(self, page: &mut Page) {
        put_digits(page, 16, 2, self.0 as usize);
    }
}
