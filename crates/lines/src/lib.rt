// The listing's lines, put on a page.
#![tactic(auto)]

ghost use Rattle.std.specs.Prelude.{◌+◌, length};
ghost use Rattle.sound.specs.Numbers.{number_of, place_of};
ghost use Rattle.text.specs.Aids.Pages.{AddsIn, has_room};
ghost use Rattle.lines.specs.Lines.{line, stamp_text, file_text, out_of_use_text, counts_text, sound_text, unsound_text};
ghost use Rattle.lines.specs.Aids.Rooms.{file_room, sound_room, unsound_room};

use sound::{Counts, Finding};
use text::digits::Hex;
use text::name::Name;
use text::page::{Page, Shown};
use text::stamp::{DateWord, TimeWord};

// A plain file, as its entry holds it.
#[derive(Clone, Copy)]
pub struct File {
    pub name: [u8; 11],
    pub attr: u8,
    pub size: u32,
    pub start: u16,
    pub date: u16,
    pub time: u16,
}

// A line: a key with its equals sign, a value, and the line's end.
fn put_line<T: Shown>(page: &mut Page, key: &[u8], value: T)
    requires { has_room (length key.now + (T.room + 1)) page.old }
    ensures { AddsIn (length key.now + (T.room + 1)) (line key.now (T.text value)) page.old page.new }
{
    page.put_bytes(key);
    value.put(page);
    page.put_bytes(b"\n");
}

// The lines of a stamp.
fn put_stamp(page: &mut Page, date: u16, time: u16)
    requires { has_room 30 page.old }
    ensures { AddsIn 30 (stamp_text date time) page.old page.new }
{
    put_line(page, b"date=", DateWord(date));
    put_line(page, b"time=", TimeWord(time));
}

// The lines of a plain file.
pub fn put_file(page: &mut Page, file: File)
    requires { has_room file_room page.old }
    ensures { AddsIn file_room (file_text file.name file.attr file.size file.start file.date file.time) page.old page.new }
{
    put_line(page, b"file=", Name(file.name));
    put_line(page, b"attr=", Hex(file.attr));
    put_line(page, b"size=", file.size as usize);
    put_line(page, b"start=", file.start as usize);
    put_stamp(page, file.date, file.time);
}

// The lines of the clusters that no file may take.
fn put_out_of_use(page: &mut Page, bad: usize, reserved: usize)
    requires { has_room 55 page.old }
    ensures { AddsIn 55 (out_of_use_text bad reserved) page.old page.new }
{
    put_line(page, b"bad=", bad);
    put_line(page, b"reserved=", reserved);
}

// The lines of the five counts.
fn put_counts(page: &mut Page, n: Counts)
    requires { has_room 134 page.old }
    ensures { AddsIn 134 (counts_text n.free n.held n.bad n.reserved n.files) page.old page.new }
{
    put_line(page, b"free=", n.free);
    put_line(page, b"held=", n.held);
    put_out_of_use(page, n.bad, n.reserved);
    put_line(page, b"files=", n.files);
}

// The lines of a sound volume, before those of its files.
pub fn put_sound(page: &mut Page, kind: u8, clusters: usize, n: Counts)
    requires { has_room sound_room page.old }
    ensures { AddsIn sound_room (sound_text kind clusters n.free n.held n.bad n.reserved n.files) page.old page.new }
{
    page.put_bytes(b"sound=yes\n");
    put_line(page, b"kind=", Hex(kind));
    put_line(page, b"clusters=", clusters);
    put_counts(page, n);
}

// The lines of a volume that is not sound: the number of a finding, and its place.
pub fn put_unsound(page: &mut Page, finding: usize, place: usize)
    requires { has_room unsound_room page.old }
    ensures { AddsIn unsound_room (unsound_text finding place) page.old page.new }
{
    page.put_bytes(b"sound=no\n");
    put_line(page, b"finding=", finding);
    put_line(page, b"place=", place);
}

// The same, of a finding of check.
pub fn put_finding(page: &mut Page, finding: Finding)
    requires { has_room unsound_room page.old }
    ensures { AddsIn unsound_room (unsound_text (number_of finding) (place_of finding)) page.old page.new }
{
    put_unsound(page, finding.number(), finding.place());
}
