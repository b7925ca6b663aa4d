// The calls over a lent row of open records, beside those over a table of bytes: the record is taken out of the row, the call done
// on it, and the record that it leaves put back.
#![tactic(auto)]

ghost use Rattle.std.specs.Prelude.{◌≡◌, true, []};
ghost use Rattle.closing.specs.Close.{close_outcome};
ghost use Rattle.opening.specs.Open.{open_outcome};
ghost use Rattle.seeking.specs.Seek.{seek_outcome};
ghost use Rattle.reading.specs.Read.{read_outcome};
ghost use Rattle.writing.specs.Write.{write_outcome};
ghost use Rattle.single.specs.Rows.{bytes_of, LeavesRow};
ghost use Rattle.lending.specs.Aids.Fits.{AllFit};

use calls::refusal::Refusal;
use records::OpenRecord;
use single::{held, place};
use stamps::Stamp;

// That the numbers of each record fit their types, which a proof learns of a record where it is read. Only prove! calls it.
fn all_fit(row: &[OpenRecord]) -> bool
    ensures fit { AllFit row.now }
    ensures told { result ≡ true }
{
    for held in row {
        if held.slot > u32::MAX || held.pointer > u32::MAX {
            return false;
        }
    }
    true
}

// Each call is written out: of what a closure changes behind a reference that it holds, the function that passed it learns nothing.
pub fn seek(
    img: &[u8],
    row: &mut [OpenRecord],
    handle: u32,
    method: u32,
    offset: i32,
) -> Result<u32, Refusal>
    ensures { LeavesRow (seek_outcome img.now (bytes_of row.old) handle method offset) result img.now row.new [] }
{
    prove!(all_fit(row));
    let place = handle as usize;
    let record = lent::record_at(row, place);
    let done = held::seek(img, record, method, offset);
    lent::put_record(row, place, done.held);
    done.answer
}

pub fn read(img: &[u8], row: &mut [OpenRecord], handle: u32, buf: &mut [u8]) -> Result<u32, Refusal>
    ensures { LeavesRow (read_outcome img.now (bytes_of row.old) handle buf.old) result img.now row.new buf.new }
{
    prove!(all_fit(row));
    let place = handle as usize;
    let record = lent::record_at(row, place);
    let done = held::read(img, record, buf);
    lent::put_record(row, place, done.held);
    done.answer
}

pub fn write(
    img: &mut [u8],
    row: &mut [OpenRecord],
    handle: u32,
    bytes: &[u8],
) -> Result<u32, Refusal>
    ensures { LeavesRow (write_outcome img.old (bytes_of row.old) handle bytes.now) result img.new row.new [] }
{
    prove!(all_fit(row));
    let place = handle as usize;
    let record = lent::record_at(row, place);
    let done = held::write(img, record, bytes);
    lent::put_record(row, place, done.held);
    done.answer
}

pub fn close(
    img: &mut [u8],
    row: &mut [OpenRecord],
    handle: u32,
    stamp: Stamp,
) -> Result<u32, Refusal>
    ensures { LeavesRow (close_outcome img.old (bytes_of row.old) handle stamp) result img.new row.new [] }
{
    prove!(all_fit(row));
    let place = handle as usize;
    let record = lent::record_at(row, place);
    let done = held::close(img, record, stamp);
    lent::put_record(row, place, done.held);
    done.answer
}

// The place is found in the row first.
pub fn open(img: &[u8], row: &mut [OpenRecord], s: &[u8], access: u32) -> Result<u32, Refusal>
    ensures { LeavesRow (open_outcome img.now (bytes_of row.old) s.now access) result img.now row.new [] }
{
    prove!(all_fit(row));
    let free = lent::lowest_unused(row);
    let (place, held) = place::open_at(img, free, s, access)?;
    lent::put_record(row, place, held);
    Ok(place as u32)
}
