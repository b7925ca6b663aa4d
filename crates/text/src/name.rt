// A file's name as text.
ghost use Rattle.std.specs.Prelude.{◌≡◌, ◌+◌, length};
ghost use Rattle.text.specs.Aids.Pages.{AddsIn, has_room};
ghost use Rattle.text.specs.Names.{only_spaces, trimmed, shown, part_text, ext_text, name_text};

use crate::page::{Page, Shown};

// Whether a part of a name holds nothing but spaces.
fn only_spaces(part: &[u8]) -> bool
    ensures { result ≡ only_spaces part.now }
{
    part.iter().all(|c| *c == b' ')
}

// A part of a name without the spaces at its end.
fn trimmed(part: &[u8]) -> &[u8]
    ensures { result.now ≡ trimmed part.now }
{
    let mut kept = part;
    while let Some((last, rest)) = kept.split_last() {
        if *last != b' ' {
            break;
        }
        kept = rest;
    }
    kept
}

// A name's byte as it is printed.
fn shown_byte(c: u8) -> u8
    ensures { result ≡ shown c }
{
    if names::is_plain(c) { c } else { b'?' }
}

// A name or an extension, up to where only spaces are left.
fn put_part(page: &mut Page, part: &[u8])
    requires { has_room (length part.now) page.old }
    ensures { AddsIn (length part.now) (part_text part.now) page.old page.new }
{
    let kept = trimmed(part);
    for c in kept {
        page.put_byte(shown_byte(*c));
    }
}

// The dot and the extension, where there is one.
fn put_extension(page: &mut Page, part: &[u8])
    requires { has_room (1 + length part.now) page.old }
    ensures { AddsIn (1 + length part.now) (ext_text part.now) page.old page.new }
{
    if !only_spaces(part) {
        page.put_byte(b'.');
        put_part(page, part);
    }
}

// A file's name: the part before the dot, and the extension.
#[derive(Clone, Copy)]
pub struct Name(pub [u8; 11]);

impl Shown for Name {
    ghost text = { λ n. name_text n.0 };

    ghost room = { 12 };

    fn put(self, page: &mut Page) {
        put_part(page, &self.0[0..8]);
        put_extension(page, &self.0[8..11]);
    }
}
