// Format: an image becomes a blank volume of a kind.
ghost use Rattle.std.specs.Prelude.{◌≡◌, ◌+◌, ◌*◌, ◌≤◌, length};
ghost use Rattle.image.specs.Store.{stored};
ghost use Rattle.diskette.specs.Kinds.{named};
ghost use Rattle.diskette.specs.Aids.Usable.{Usable};
ghost use Rattle.formatting.specs.Format.{table_head, blank, Formatted};

use calls::refusal::Refusal;
use diskette::Kind;

// The kind that a number names. No number above 255 names one.
fn kind_numbered(kind: u32) -> Option<Kind>
    ensures { result ≡ named kind }
{
    match u8::try_from(kind) {
        Ok(byte) => Kind::named(byte),
        Err(_) => None,
    }
}

// Stores the three bytes with which a copy of the table begins.
fn put_table_head(img: &mut [u8], at: usize, byte: u8)
    requires { at + 3 ≤ length img.old }
    ensures { img.new ≡ stored img.old at (table_head byte) }
{
    img[at] = byte;
    img[at + 1] = 0xFF;
    img[at + 2] = 0xFF;
}

// Makes the whole image a blank volume of the kind.
fn make_blank(img: &mut [u8], k: Kind)
    requires usable { Usable k }
    requires img_len { length img.old ≡ 512 * k.sectors }
    ensures { img.new ≡ blank k }
{
    let data = 512 * k.first_data();
    let rest = 512 * k.sectors - data;
    let second = k.copy_two();
    image::fill(img, 0, data, 0x00);
    image::fill(img, data, rest, 0xF6);
    put_table_head(img, 512, k.byte);
    put_table_head(img, second, k.byte);
}

// Formats the image as a volume of the kind. Refused by 40 where the number names no kind or the image has not its length.
pub fn format(img: &mut [u8], kind: u32) -> Result<(), Refusal>
    ensures { Formatted img.old kind result img.new }
{
    let k = kind_numbered(kind).ok_or(Refusal::OfNoKind)?;
    if img.len() != 512 * k.sectors {
        return Err(Refusal::OfNoKind);
    }
    make_blank(img, k);
    Ok(())
}
