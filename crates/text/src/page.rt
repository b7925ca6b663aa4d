// The page that texts are put on: a buffer that the caller lends, filled from its start on.
ghost use Rattle.std.specs.Prelude.{◌≡◌, ◌<◌, ◌≤◌, List, ℕ, [], ◌∷◌, length};
ghost use Rattle.text.specs.Aids.Pages.{AddsIn, has_room};
ghost use Rattle.text.specs.Digits.{in_digits};

use crate::digits;

// The buffer, and how many bytes of it are filled.
#[derive(Drop)]
pub struct Page<'a> {
    out: &'a mut [u8],
    at: usize,
}

impl<'a> Page<'a> {
    // An empty page.
    pub fn new(out: &'a mut [u8]) -> Page<'a>
        ensures same { result.out.ghost_name ≡ out.entry.ghost_name }
        ensures lent { result.out.now ≡ out.old }
        ensures empty { result.at ≡ 0 }
    {
        Page { out, at: 0 }
    }

    // How many bytes are filled.
    pub fn len(&self) -> usize
        ensures { result ≡ self.now.at }
    {
        self.at
    }

    // A text as it is.
    pub fn put_bytes(&mut self, text: &[u8])
        requires { has_room (length text.now) self.old }
        ensures { AddsIn (length text.now) text.now self.old self.new }
    {
        image::copy_in(self.out, self.at, text);
        self.at += text.len();
    }

    // The last digits of n in a base.
    pub fn put_digits(&mut self, base: usize, count: usize, n: usize)
        requires is_base { (1 < base) × (base ≤ 16) }
        requires room { has_room count self.old }
        ensures { AddsIn count (in_digits base count n) self.old self.new }
    {
        digits::store_digits(self.out, self.at, base, count, n);
        self.at += count;
    }

    // A single byte.
    pub fn put_byte(&mut self, b: u8)
        requires { has_room 1 self.old }
        ensures { AddsIn 1 (b ∷ []) self.old self.new }
    {
        self.put_bytes(&[b]);
    }
}

// A value that is put on a page as a text.
pub trait Shown {
    ghost text: { Self → List ℕ };

    // How many bytes the text has at most.
    ghost room: { ℕ };

    fn put(self, page: &mut Page)
        requires { has_room room page.old }
        ensures { AddsIn room (text self) page.old page.new };
}
