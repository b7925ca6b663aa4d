// The listing of a system area, put into a buffer that the caller lends; for C too (tools/listing.h).
#![tactic(auto)]

ghost use Rattle.std.specs.Prelude.{◌+◌, ◌*◌, ◌≤◌, length, Ok};
ghost use Rattle.diskette.specs.Images.{AreaOf};
ghost use Rattle.diskette.specs.Places.{slot_from};
ghost use Rattle.text.specs.Aids.Pages.{AddsIn, has_room};
ghost use Rattle.lines.specs.Aids.Rooms.{file_room};
ghost use Rattle.listing.specs.Listing.{entry_text, slot_text, files_text, volume_text, listing_of, listing_room, Lists};

use diskette::Kind;
use lines::File;
use sound::{Counts, Finding};
use text::page::Page;

// The lines of the plain file whose entry stands at byte a.
fn put_entry(page: &mut Page, area: &[u8], a: usize)
    requires a_in_bounds { a + 32 ≤ length area.now }
    requires file_room_in_bounds { has_room file_room page.old }
    ensures { AddsIn file_room (entry_text area.now a) page.old page.new }
{
    let file = File {
        name: fields::name_at(area, a),
        attr: fields::attr_at(area, a),
        size: fields::size_at(area, a),
        start: fields::start_at(area, a),
        date: fields::date_at(area, a),
        time: fields::time_at(area, a),
    };
    lines::put_file(page, file);
}

// The same of any entry: nothing where there is no plain file.
fn put_slot(page: &mut Page, area: &[u8], a: usize)
    requires a_in_bounds { a + 32 ≤ length area.now }
    requires file_room_in_bounds { has_room file_room page.old }
    ensures { AddsIn file_room (slot_text area.now a) page.old page.new }
{
    if directory::plain_at(area, a) {
        put_entry(page, area, a);
    }
}

// The files of a directory with count slots that stands at byte root, in slot order.
fn put_files(page: &mut Page, area: &[u8], root: usize, count: usize)
    requires count_in_bounds { root + 32 * count ≤ length area.now }
    requires count_in_bounds_2 { has_room (file_room * count) page.old }
    ensures { AddsIn (file_room * count) (files_text area.now (slot_from root) 0 count) page.old page.new }
{
    for slot in 0..count {
        put_slot(page, area, root + 32 * slot);
    }
}

// The lines of a sound volume of the kind k, and of its files.
fn put_volume(page: &mut Page, area: &[u8], k: Kind, n: Counts)
    requires area_of { AreaOf area.now k }
    requires listing_room_in_bounds { has_room listing_room page.old }
    ensures { AddsIn listing_room (volume_text k area.now (Ok n)) page.old page.new }
{
    lines::put_sound(page, k.byte, k.clusters(), n);
    put_files(page, area, k.root_at(), k.root_entries());
}

// The whole listing.
fn list(page: &mut Page, area: &[u8])
    requires { has_room listing_room page.old }
    ensures { AddsIn listing_room (listing_of area.now) page.old page.new }
{
    match diskette::kind_of_area(area) {
        Some(k) => match sound::check_system(area) {
            Ok(counts) => put_volume(page, area, k, counts),
            Err(finding) => lines::put_finding(page, finding),
        },
        None => lines::put_finding(page, Finding::OfNoKind),
    }
}

// The same for C: how many bytes it has. Into a buffer of fewer than 16,384 bytes nothing is put, and the answer is 0.
pub fn listing_put(area: &[u8], out: &mut [u8]) -> usize
    ensures { Lists area.now out.old result out.new }
{
    if out.len() < 16384 {
        return 0;
    }
    let mut page = Page::new(out);
    list(&mut page, area);
    page.len()
}
