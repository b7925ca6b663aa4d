// The calls over an open table, find, view's number and rescue: a name, a pattern and the table are byte slices too.
#![tactic(auto, using(crate::proofs::Laws::Calls::hands, crate::proofs::Laws::Calls::create_hands, crate::proofs::Laws::Calls::close_hands, crate::proofs::Laws::Calls::seek_hands, crate::proofs::Laws::Calls::view_number_leaves))]

ghost use Rattle.std.specs.Prelude.{[]};
ghost use Rattle.closing.specs.Close.{close_outcome};
ghost use Rattle.marking.specs.Mode.{mode_outcome};
ghost use Rattle.matching.specs.Find.{find_outcome};
ghost use Rattle.opening.specs.Open.{open_outcome};
ghost use Rattle.renaming.specs.Rename.{rename_outcome};
ghost use Rattle.seeking.specs.Seek.{seek_outcome};
ghost use Rattle.creating.specs.Create.{create_outcome};
ghost use Rattle.deleting.specs.Delete.{delete_outcome};
ghost use Rattle.reading.specs.Read.{read_outcome};
ghost use Rattle.rescuing.specs.Rescue.{rescue_outcome};
ghost use Rattle.writing.specs.Write.{write_outcome};
ghost use Rattle.packing.specs.Stamps.{stamp_of};
ghost use Rattle.scale.specs.Calls.{Leaves, view_number_call};

// Finds the first file at or after a slot that matches a pattern: the value is its slot.
pub fn bm_find(img: &[u8], pattern: &[u8], slot: u32, mask: u32) -> u64
    ensures { Leaves (find_outcome img.now pattern.now slot mask) result img.now [] [] }
{
    packing::answer::hand(matching::find::find(img, pattern, slot, mask))
}

// Opens a file: the value is its handle.
pub fn bm_open(img: &[u8], t: &mut [u8], name: &[u8], access: u32) -> u64
    ensures { Leaves (open_outcome img.now t.old name.now access) result img.now t.new [] }
{
    packing::answer::hand(opening::open::open(img, t, name, access))
}

// Creates or empties a file and opens it: the value is its handle.
// (The six numbers of the stamp come one by one, as C hands them over.)
pub fn bm_create(
    img: &mut [u8],
    t: &mut [u8],
    name: &[u8],
    attr: u32,
    hour: u32,
    minute: u32,
    step: u32,
    year: u32,
    month: u32,
    day: u32,
) -> u64
    ensures { Leaves (create_outcome img.old t.old name.now attr (stamp_of hour minute step year month day)) result img.new t.new [] }
{
    let created = packing::stamp::stamp(hour, minute, step, year, month, day);
    packing::answer::hand(creating::create::create(img, t, name, attr, created))
}

// Reads from the pointer on: the value is the count.
pub fn bm_read(img: &[u8], t: &mut [u8], handle: u32, buf: &mut [u8]) -> u64
    ensures { Leaves (read_outcome img.now t.old handle buf.old) result img.now t.new buf.new }
{
    packing::answer::hand(reading::read::read(img, t, handle, buf))
}

// Writes from the pointer on: the value is the count.
pub fn bm_write(img: &mut [u8], t: &mut [u8], handle: u32, bytes: &[u8]) -> u64
    ensures { Leaves (write_outcome img.old t.old handle bytes.now) result img.new t.new [] }
{
    packing::answer::hand(writing::write::write(img, t, handle, bytes))
}

// Moves a pointer: the value is where it then stands.
pub fn bm_seek(img: &[u8], t: &mut [u8], handle: u32, method: u32, offset: i32) -> u64
    ensures { Leaves (seek_outcome img.now t.old handle method offset) result img.now t.new [] }
{
    packing::answer::hand(seeking::seek::seek(img, t, handle, method, offset))
}

// Closes a file.
// (The six numbers of the stamp come one by one, as C hands them over.)
pub fn bm_close(
    img: &mut [u8],
    t: &mut [u8],
    handle: u32,
    hour: u32,
    minute: u32,
    step: u32,
    year: u32,
    month: u32,
    day: u32,
) -> u64
    ensures { Leaves (close_outcome img.old t.old handle (stamp_of hour minute step year month day)) result img.new t.new [] }
{
    let closed = packing::stamp::stamp(hour, minute, step, year, month, day);
    packing::answer::hand(closing::close::close(img, t, handle, closed))
}

// Deletes a file.
pub fn bm_delete(img: &mut [u8], t: &[u8], name: &[u8]) -> u64
    ensures { Leaves (delete_outcome img.old t.now name.now) result img.new t.now [] }
{
    packing::answer::hand(deleting::delete::delete(img, t, name))
}

// Renames a file.
pub fn bm_rename(img: &mut [u8], t: &[u8], name: &[u8], new: &[u8]) -> u64
    ensures { Leaves (rename_outcome img.old t.now name.now new.now) result img.new t.now [] }
{
    packing::answer::hand(renaming::rename::rename(img, t, name, new))
}

// Answers a file's attribute (function 0) or sets it (function 1).
pub fn bm_mode(img: &mut [u8], t: &[u8], name: &[u8], function: u32, attr: u32) -> u64
    ensures { Leaves (mode_outcome img.old t.now name.now function attr) result img.new t.now [] }
{
    packing::answer::hand(marking::mode::mode(img, t, name, function, attr))
}

// The number by which view refuses, or 0.
pub fn bm_view_number(img: &[u8], name: &[u8], offset: u32) -> u64
    ensures { Leaves (view_number_call img.now name.now offset) result img.now [] [] }
{
    let number = viewing::view::view_number(img, name, offset);
    packing::answer::pack(number, 0)
}

// Reads a file of a volume that need not be sound: the value is the count.
pub fn bm_rescue(img: &[u8], name: &[u8], out: &mut [u8]) -> u64
    ensures { Leaves (rescue_outcome img.now name.now out.old) result img.now [] out.new }
{
    packing::answer::hand(rescuing::rescue::rescue(img, name, out))
}
