// The 32 bytes of a directory entry, by the address a of the first: its fields read and stored.
#![tactic(auto)]

ghost use Rattle.std.specs.Prelude.{◌≡◌, ◌+◌, ◌≤◌, length};
ghost use Rattle.fields.specs.Fields.{name_of, attr_of, time_of, date_of, start_of, size_of, with_name, with_first, with_attr, with_time, with_date, with_start, with_size, tail_bytes, with_entry};
ghost use Rattle.fields.specs.Aids.Fields.{head_bytes};
ghost use Rattle.image.specs.Store.{stored};

// (A function for each field: each is one line, and one for all would need a type that says which field is meant.)
pub fn name_at(img: &[u8], a: usize) -> [u8; 11]
    requires { a + 32 ≤ length img.now }
    ensures { result ≡ name_of img.now a }
{
    img[a..a + 11].try_into().unwrap()
}

pub fn attr_at(img: &[u8], a: usize) -> u8
    requires { a + 32 ≤ length img.now }
    ensures { result ≡ attr_of img.now a }
{
    img[a + 11]
}

pub fn time_at(img: &[u8], a: usize) -> u16
    requires { a + 32 ≤ length img.now }
    ensures { result ≡ time_of img.now a }
{
    image::get16(img, a + 22)
}

pub fn date_at(img: &[u8], a: usize) -> u16
    requires { a + 32 ≤ length img.now }
    ensures { result ≡ date_of img.now a }
{
    image::get16(img, a + 24)
}

pub fn start_at(img: &[u8], a: usize) -> u16
    requires { a + 32 ≤ length img.now }
    ensures { result ≡ start_of img.now a }
{
    image::get16(img, a + 26)
}

pub fn size_at(img: &[u8], a: usize) -> u32
    requires { a + 32 ≤ length img.now }
    ensures { result ≡ size_of img.now a }
{
    image::get32(img, a + 28)
}

pub fn put_name(img: &mut [u8], a: usize, name: [u8; 11])
    requires { a + 32 ≤ length img.old }
    ensures { img.new ≡ with_name img.old a name }
{
    image::copy_in(img, a, &name);
}

// Stores the first byte: E5 erases the entry, and its other bytes stay.
pub fn put_first(img: &mut [u8], a: usize, v: u8)
    requires { a + 32 ≤ length img.old }
    ensures { img.new ≡ with_first img.old a v }
{
    img[a] = v;
}

pub fn put_attr(img: &mut [u8], a: usize, attr: u8)
    requires { a + 32 ≤ length img.old }
    ensures { img.new ≡ with_attr img.old a attr }
{
    img[a + 11] = attr;
}

pub fn put_reserved(img: &mut [u8], a: usize, reserved: [u8; 10])
    requires { a + 32 ≤ length img.old }
    ensures { img.new ≡ stored img.old (a + 12) reserved }
{
    image::copy_in(img, a + 12, &reserved);
}

pub fn put_time(img: &mut [u8], a: usize, time: u16)
    requires { a + 32 ≤ length img.old }
    ensures { img.new ≡ with_time img.old a time }
{
    image::put16(img, a + 22, time);
}

pub fn put_date(img: &mut [u8], a: usize, date: u16)
    requires { a + 32 ≤ length img.old }
    ensures { img.new ≡ with_date img.old a date }
{
    image::put16(img, a + 24, date);
}

pub fn put_start(img: &mut [u8], a: usize, start: u16)
    requires { a + 32 ≤ length img.old }
    ensures { img.new ≡ with_start img.old a start }
{
    image::put16(img, a + 26, start);
}

pub fn put_size(img: &mut [u8], a: usize, size: u32)
    requires { a + 32 ≤ length img.old }
    ensures { img.new ≡ with_size img.old a size }
{
    image::put32(img, a + 28, size);
}

// Name, attribute and ten zero reserved bytes.
fn put_head(img: &mut [u8], a: usize, name: [u8; 11], attr: u8)
    requires { a + 32 ≤ length img.old }
    ensures { img.new ≡ stored img.old a (head_bytes name attr) }
{
    put_name(img, a, name);
    put_attr(img, a, attr);
    put_reserved(img, a, [0; 10]);
}

// Time, date, start and size.
fn put_tail(img: &mut [u8], a: usize, time: u16, date: u16, start: u16, size: u32)
    requires { a + 32 ≤ length img.old }
    ensures { img.new ≡ stored img.old (a + 22) (tail_bytes time date start size) }
{
    put_time(img, a, time);
    put_date(img, a, date);
    put_start(img, a, start);
    put_size(img, a, size);
}

// A whole fresh entry.
pub fn write_entry(
    img: &mut [u8],
    a: usize,
    name: [u8; 11],
    attr: u8,
    time: u16,
    date: u16,
    start: u16,
    size: u32,
)
    requires { a + 32 ≤ length img.old }
    ensures { img.new ≡ with_entry img.old a name attr time date start size }
{
    put_head(img, a, name, attr);
    put_tail(img, a, time, date, start, size);
}
