// The calls on one record that is held out of its row: each is the call on a table of bytes that has this record alone.
ghost use Rattle.std.specs.Prelude.{[], ◌∷◌, ◌≡◌};
ghost use Rattle.closing.specs.Close.{close_outcome};
ghost use Rattle.opening.specs.Open.{open_outcome};
ghost use Rattle.seeking.specs.Seek.{seek_outcome};
ghost use Rattle.reading.specs.Read.{read_outcome};
ghost use Rattle.writing.specs.Write.{write_outcome};
ghost use Rattle.single.specs.Rows.{bytes_of, LeavesRow};

use calls::refusal::Refusal;
use records::OpenRecord;
use stamps::Stamp;

// What a call answers, and the record after it.
#[derive(Clone, Copy)]
pub struct Done {
    pub answer: Result<u32, Refusal>,
    pub held: OpenRecord,
}

// A table of bytes with this record alone. An unused one keeps its fields too: a refusal has to leave them.
fn table_of(held: OpenRecord) -> [u8; 16]
    ensures { result ≡ bytes_of (held ∷ []) }
{
    let mut t = [0u8; 16];
    opened::put_record(&mut t, 0, held.access, held.slot, held.pointer);
    t[0] = u8::from(held.used);
    t[2] = u8::from(held.written);
    t
}

// Each call is written out: of what a closure changes behind a reference that it holds, the function that passed it learns nothing.
pub fn seek(img: &[u8], held: OpenRecord, method: u32, offset: i32) -> Done
    ensures { LeavesRow (seek_outcome img.now (bytes_of (held ∷ [])) 0 method offset) result.answer img.now (result.held ∷ []) [] }
{
    let mut t = table_of(held);
    let answer = seeking::seek::seek(img, &mut t, 0, method, offset);
    Done {
        answer,
        held: lent::from_bytes(&t, 0),
    }
}

pub fn read(img: &[u8], held: OpenRecord, buf: &mut [u8]) -> Done
    ensures { LeavesRow (read_outcome img.now (bytes_of (held ∷ [])) 0 buf.old) result.answer img.now (result.held ∷ []) buf.new }
{
    let mut t = table_of(held);
    let answer = reading::read::read(img, &mut t, 0, buf);
    Done {
        answer,
        held: lent::from_bytes(&t, 0),
    }
}

pub fn write(img: &mut [u8], held: OpenRecord, bytes: &[u8]) -> Done
    ensures { LeavesRow (write_outcome img.old (bytes_of (held ∷ [])) 0 bytes.now) result.answer img.new (result.held ∷ []) [] }
{
    let mut t = table_of(held);
    let answer = writing::write::write(img, &mut t, 0, bytes);
    Done {
        answer,
        held: lent::from_bytes(&t, 0),
    }
}

pub fn close(img: &mut [u8], held: OpenRecord, stamp: Stamp) -> Done
    ensures { LeavesRow (close_outcome img.old (bytes_of (held ∷ [])) 0 stamp) result.answer img.new (result.held ∷ []) [] }
{
    let mut t = table_of(held);
    let answer = closing::close::close(img, &mut t, 0, stamp);
    Done {
        answer,
        held: lent::from_bytes(&t, 0),
    }
}

pub fn open(img: &[u8], held: OpenRecord, s: &[u8], access: u32) -> Done
    ensures { LeavesRow (open_outcome img.now (bytes_of (held ∷ [])) s.now access) result.answer img.now (result.held ∷ []) [] }
{
    let mut t = table_of(held);
    let answer = opening::open::open(img, &mut t, s, access);
    Done {
        answer,
        held: lent::from_bytes(&t, 0),
    }
}
