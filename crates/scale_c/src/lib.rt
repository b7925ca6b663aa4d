// The calls of crate scale, exported for C as include/balladmoor.h declares them.
#![tactic(auto)]

ghost use Rattle.std.specs.Prelude.{[]};
ghost use Rattle.formatting.specs.Format.{formatted};
ghost use Rattle.scale.specs.Calls.{Leaves, check_call, check_system_call, free_space_call, entry_call, view_number_call};
ghost use Rattle.closing.specs.Close.{close_outcome};
ghost use Rattle.marking.specs.Mode.{mode_outcome};
ghost use Rattle.matching.specs.Find.{find_outcome};
ghost use Rattle.opening.specs.Open.{open_outcome};
ghost use Rattle.renaming.specs.Rename.{rename_outcome};
ghost use Rattle.seeking.specs.Seek.{seek_outcome};
ghost use Rattle.creating.specs.Create.{create_outcome};
ghost use Rattle.deleting.specs.Delete.{delete_outcome};
ghost use Rattle.reading.specs.Read.{read_outcome};
ghost use Rattle.rescuing.specs.Rescue.{rescue_outcome};
ghost use Rattle.writing.specs.Write.{write_outcome};
ghost use Rattle.packing.specs.Stamps.{stamp_of};

// Makes a blank volume of the kind.
#[unsafe(no_mangle)]
pub extern "C" fn bm_format(img: &mut [u8], kind: u32) -> u64
    ensures { Leaves (formatted kind img.old) result img.new [] [] }
{
    scale::bm_format(img, kind)
}

// Judges a whole image.
#[unsafe(no_mangle)]
pub extern "C" fn bm_check(img: &[u8], out: &mut [u8]) -> u64
    ensures { Leaves (check_call img.now out.old) result img.now [] out.new }
{
    scale::bm_check(img, out)
}

// Judges a system area alone.
#[unsafe(no_mangle)]
pub extern "C" fn bm_check_system(area: &[u8], out: &mut [u8]) -> u64
    ensures { Leaves (check_system_call area.now out.old) result area.now [] out.new }
{
    scale::bm_check_system(area, out)
}

// Counts the free clusters of a sound volume.
#[unsafe(no_mangle)]
pub extern "C" fn bm_free_space(img: &[u8], out: &mut [u8]) -> u64
    ensures { Leaves (free_space_call img.now out.old) result img.now [] out.new }
{
    scale::bm_free_space(img, out)
}

// Gives the directory entry at a slot of the root.
#[unsafe(no_mangle)]
pub extern "C" fn bm_entry(img: &[u8], slot: u32, out: &mut [u8]) -> u64
    ensures { Leaves (entry_call img.now slot out.old) result img.now [] out.new }
{
    scale::bm_entry(img, slot, out)
}

// Finds the first file at or after a slot that matches a pattern: the value is its slot.
#[unsafe(no_mangle)]
pub extern "C" fn bm_find(img: &[u8], pattern: &[u8], slot: u32, mask: u32) -> u64
    ensures { Leaves (find_outcome img.now pattern.now slot mask) result img.now [] [] }
{
    scale::files::bm_find(img, pattern, slot, mask)
}

// Opens a file: the value is its handle.
#[unsafe(no_mangle)]
pub extern "C" fn bm_open(img: &[u8], t: &mut [u8], name: &[u8], access: u32) -> u64
    ensures { Leaves (open_outcome img.now t.old name.now access) result img.now t.new [] }
{
    scale::files::bm_open(img, t, name, access)
}

// Creates or empties a file and opens it: the value is its handle.
#[unsafe(no_mangle)]
pub extern "C" fn bm_create(
    img: &mut [u8],
    t: &mut [u8],
    name: &[u8],
    attr: u32,
    hour: u32,
    minute: u32,
    step: u32,
    year: u32,
    month: u32,
    day: u32,
) -> u64
    ensures { Leaves (create_outcome img.old t.old name.now attr (stamp_of hour minute step year month day)) result img.new t.new [] }
{
    scale::files::bm_create(img, t, name, attr, hour, minute, step, year, month, day)
}

// Reads from the pointer on: the value is the count.
#[unsafe(no_mangle)]
pub extern "C" fn bm_read(img: &[u8], t: &mut [u8], handle: u32, buf: &mut [u8]) -> u64
    ensures { Leaves (read_outcome img.now t.old handle buf.old) result img.now t.new buf.new }
{
    scale::files::bm_read(img, t, handle, buf)
}

// Writes from the pointer on: the value is the count.
#[unsafe(no_mangle)]
pub extern "C" fn bm_write(img: &mut [u8], t: &mut [u8], handle: u32, bytes: &[u8]) -> u64
    ensures { Leaves (write_outcome img.old t.old handle bytes.now) result img.new t.new [] }
{
    scale::files::bm_write(img, t, handle, bytes)
}

// Moves a pointer: the value is where it then stands.
#[unsafe(no_mangle)]
pub extern "C" fn bm_seek(img: &[u8], t: &mut [u8], handle: u32, method: u32, offset: i32) -> u64
    ensures { Leaves (seek_outcome img.now t.old handle method offset) result img.now t.new [] }
{
    scale::files::bm_seek(img, t, handle, method, offset)
}

// Closes a file.
#[unsafe(no_mangle)]
pub extern "C" fn bm_close(
    img: &mut [u8],
    t: &mut [u8],
    handle: u32,
    hour: u32,
    minute: u32,
    step: u32,
    year: u32,
    month: u32,
    day: u32,
) -> u64
    ensures { Leaves (close_outcome img.old t.old handle (stamp_of hour minute step year month day)) result img.new t.new [] }
{
    scale::files::bm_close(img, t, handle, hour, minute, step, year, month, day)
}

// Deletes a file.
#[unsafe(no_mangle)]
pub extern "C" fn bm_delete(img: &mut [u8], t: &[u8], name: &[u8]) -> u64
    ensures { Leaves (delete_outcome img.old t.now name.now) result img.new t.now [] }
{
    scale::files::bm_delete(img, t, name)
}

// Renames a file.
#[unsafe(no_mangle)]
pub extern "C" fn bm_rename(img: &mut [u8], t: &[u8], name: &[u8], new: &[u8]) -> u64
    ensures { Leaves (rename_outcome img.old t.now name.now new.now) result img.new t.now [] }
{
    scale::files::bm_rename(img, t, name, new)
}

// Answers a file's attribute (function 0) or sets it (function 1).
#[unsafe(no_mangle)]
pub extern "C" fn bm_mode(img: &mut [u8], t: &[u8], name: &[u8], function: u32, attr: u32) -> u64
    ensures { Leaves (mode_outcome img.old t.now name.now function attr) result img.new t.now [] }
{
    scale::files::bm_mode(img, t, name, function, attr)
}

// The number by which view refuses, or 0.
#[unsafe(no_mangle)]
pub extern "C" fn bm_view_number(img: &[u8], name: &[u8], offset: u32) -> u64
    ensures { Leaves (view_number_call img.now name.now offset) result img.now [] [] }
{
    scale::files::bm_view_number(img, name, offset)
}

// Reads a file of a volume that need not be sound: the value is the count.
#[unsafe(no_mangle)]
pub extern "C" fn bm_rescue(img: &[u8], name: &[u8], out: &mut [u8]) -> u64
    ensures { Leaves (rescue_outcome img.now name.now out.old) result img.now [] out.new }
{
    scale::files::bm_rescue(img, name, out)
}
