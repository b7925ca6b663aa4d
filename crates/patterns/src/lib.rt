// Patterns given by callers: eleven bytes, or refused; and the names that match them.
#![tactic(auto)]

ghost use Rattle.std.specs.Prelude.{◌≡◌, ◌+◌, ◌≤◌, cond, length};
ghost use Rattle.names.specs.Spelling.{space, every, without_last};
ghost use Rattle.fields.specs.Fields.{name_of};
ghost use Rattle.patterns.specs.Patterns.{any, star, pattern_sign, pattern_part, starred, pattern_given, byte_matches, matches};

use names::{Part, Rule};

// Whether c is a character of a pattern, but for `*`.
#[tactic(auto, unfolding(crate::specs::Patterns::pattern_sign))]
fn is_pattern_sign(c: u8) -> bool
    ensures { result ≡ pattern_sign c }
{
    names::is_allowed(c) || c == b'?'
}

// Whether every character of s is one of a pattern, but for `*`.
#[tactic(auto, unfolding(names::specs::Spelling::every))]
fn all_signs(s: &[u8]) -> bool
    ensures { result ≡ every pattern_sign s.now }
{
    s.iter().all(|&c| is_pattern_sign(c))
}

// The part t without a last `*`, which fills it with `?`.
#[tactic(auto, using(crate::proofs::Laws::Parts::cores))]
fn unstarred(t: &[u8]) -> Part<'_>
    ensures core { result.core.now ≡ without_last star t.now }
    ensures short { length result.core.now ≤ length t.now }
    ensures filler { result.filler ≡ cond (starred t.now) any space }
{
    match t {
        [core @ .., b'*'] => Part { core, filler: b'?' },
        _ => Part {
            core: t,
            filler: b' ',
        },
    }
}

// Parts of patterns: `?` is a character too, and a last `*`.
struct Wild;

impl Rule for Wild {
    ghost good = { pattern_part };

    ghost core = { without_last star };

    ghost filler = { λ t. cond (starred t) any space };

    #[tactic(auto, unfolding(crate::specs::Patterns::pattern_part))]
    fn part(t: &[u8], least: usize, most: usize) -> Option<Part<'_>> {
        let part = unstarred(t);
        ((least..=most).contains(&t.len()) && all_signs(part.core)).then_some(part)
    }
}

// The pattern that a caller gives: none where it breaks the rules.
#[tactic(auto, unfolding(crate::specs::Patterns::pattern_given, crate::specs::Patterns::eleven_wild))]
pub fn pattern_given(pattern: &[u8]) -> Option<[u8; 11]>
    ensures { result ≡ pattern_given pattern.now }
{
    names::spelled::<Wild>(pattern)
}

// Whether the byte x of a name matches the byte p of a pattern.
fn byte_matches(p: u8, x: u8) -> bool
    ensures { result ≡ byte_matches p x }
{
    p == b'?' || x == p
}

// Whether the entry's name matches the pattern, on all 11 bytes.
pub fn matches_at(img: &[u8], a: usize, pattern: [u8; 11]) -> bool
    requires { a + 32 ≤ length img.now }
    ensures { result ≡ matches pattern (name_of img.now a) }
{
    pattern
        .iter()
        .zip(&img[a..a + 11])
        .all(|(&p, &x)| byte_matches(p, x))
}
