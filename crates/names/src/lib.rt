// Names given by callers: eleven bytes, or refused.
#![tactic(auto)]

ghost use Rattle.std.specs.Prelude.{ℕ, Bool, List, ◌≡◌, ◌≤◌, ◌&&◌, ◌==◌, ◌++◌, map, length, is_some, IfSome};
ghost use Rattle.std.specs.List.{position};
ghost use Rattle.names.specs.Alphabet.{within, plain, allowed, capital};
ghost use Rattle.names.specs.Spelling.{dot, space, every, filled};
ghost use Rattle.names.specs.Reading.{before_first, after_first, name_given};
ghost use Rattle.names.specs.Aids.Reading.{bytes_by, answer};
ghost use Rattle.names.specs.Aids.Bytes.{filled_byte};

use std::array;

// Whether c is a capital, a digit or one of the signs.
#[tactic(auto, unfolding(crate::specs::Alphabet::plain))]
pub fn is_plain(c: u8) -> bool
    ensures { result ≡ plain c }
{
    c.is_ascii_uppercase() || c.is_ascii_digit() || b"$&#@!%'()-{}_".contains(&c)
}

// Whether a caller may write c in a name.
#[tactic(auto, unfolding(crate::specs::Alphabet::allowed))]
pub fn is_allowed(c: u8) -> bool
    ensures { result ≡ allowed c }
{
    c.is_ascii_lowercase() || is_plain(c)
}

// Small letters become capitals, others stay.
#[tactic(auto, unfolding(crate::specs::Alphabet::capital))]
pub fn to_capital(c: u8) -> u8
    ensures { result ≡ capital c }
{
    c.to_ascii_uppercase()
}

// Whether a caller may write every character of s in a name.
#[tactic(auto, unfolding(crate::specs::Spelling::every))]
fn all_allowed(s: &[u8]) -> bool
    ensures { result ≡ every allowed s.now }
{
    s.iter().all(|&c| is_allowed(c))
}

// Where the first dot of s stands, if it has one.
fn first_dot(s: &[u8]) -> Option<usize>
    ensures { result ≡ position (λ c. c == dot) s.now }
{
    s.iter().position(|&c| c == b'.')
}

// Where the first dot of s stands: its length where there is none.
#[tactic(auto, using(crate::proofs::Laws::Code::dot_place))]
pub fn dot_at(s: &[u8]) -> usize
    ensures { result ≡ length (before_first dot s.now) }
{
    first_dot(s).unwrap_or(s.len())
}

// What stands before the first dot of s, and after it.
#[tactic(auto, using(crate::proofs::Laws::Code::cut_at_dot))]
fn parts(s: &[u8]) -> (&[u8], &[u8])
    ensures base { result.0.now ≡ before_first dot s.now }
    ensures ext { result.1.now ≡ after_first dot s.now }
{
    match first_dot(s) {
        Some(at) => (&s[..at], &s[at + 1..]),
        None => (s, b""),
    }
}

// A part of what a caller writes, before or after the dot: what stands in capitals of it, and the byte that fills it up.
#[derive(Clone, Copy)]
pub struct Part<'a> {
    pub core: &'a [u8],
    pub filler: u8,
}

impl Part<'_> {
    // Byte i of the part in capitals, and then the filler.
    fn byte(&self, i: usize) -> u8
        ensures { result ≡ filled_byte self.now.filler self.now.core.now i }
    {
        self.core.get(i).map_or(self.filler, |&c| to_capital(c))
    }
}

// How parts are read: which are good, what stands in capitals of a good one, and what fills it up.
pub trait Rule {
    ghost good: { List ℕ → Bool };

    ghost core: { List ℕ → List ℕ };

    ghost filler: { List ℕ → ℕ };

    // The part t, where it is good and has from least to most characters.
    fn part(t: &[u8], least: usize, most: usize) -> Option<Part<'_>>
        ensures fits { is_some result ≡ (within least most (length t.now) && good t.now) }
        ensures core { IfSome result (λ p. p.core.now ≡ core t.now) }
        ensures short { IfSome result (λ p. length p.core.now ≤ length t.now) }
        ensures filler { IfSome result (λ p. p.filler ≡ filler t.now) };
}

// The eleven bytes of two parts.
fn eleven_bytes(base: &Part, ext: &Part) -> [u8; 11]
    requires base { length base.now.core.now ≤ 8 }
    requires ext { length ext.now.core.now ≤ 3 }
    ensures { result ≡ filled 8 base.now.filler (map capital base.now.core.now) ++ filled 3 ext.now.filler (map capital ext.now.core.now) }
{
    array::from_fn(|i| if i < 8 { base.byte(i) } else { ext.byte(i - 8) })
}

// The eleven bytes that s spells: none where it breaks the rule.
pub fn spelled<R: Rule>(s: &[u8]) -> Option<[u8; 11]>
    ensures { result ≡ answer R.good (bytes_by R.core R.filler) s.now }
{
    let (base, ext) = parts(s);
    let base = R::part(base, 1, 8)?;
    let ext = R::part(ext, 0, 3)?;
    Some(eleven_bytes(&base, &ext))
}

// Parts of names: every character may be written, and spaces fill them up.
struct Plain;

impl Rule for Plain {
    ghost good = { every allowed };

    ghost core = { λ t. t };

    ghost filler = { λ _. space };

    fn part(t: &[u8], least: usize, most: usize) -> Option<Part<'_>> {
        let part = Part {
            core: t,
            filler: b' ',
        };
        ((least..=most).contains(&t.len()) && all_allowed(t)).then_some(part)
    }
}

// The name that a caller gives: none where it breaks the rules.
#[tactic(auto, unfolding(crate::specs::Reading::name_given, crate::specs::Spelling::eleven))]
pub fn name_given(s: &[u8]) -> Option<[u8; 11]>
    ensures { result ≡ name_given s.now }
{
    spelled::<Plain>(s)
}
