// What a call puts into out. Where out is too short for it, out stays as it came.
ghost use Rattle.std.specs.Prelude.{◌≡◌};
ghost use Rattle.scale.specs.Out.{put_out, words, fields};

use entries::EntryFields;

// Puts numbers as words: of each its low 32 bits.
#[tactic(auto, using(crate::proofs::Laws::Out::words_short, crate::proofs::Laws::Out::words_turn, crate::proofs::Laws::Out::words_put))]
pub fn words(out: &mut [u8], numbers: &[usize])
    ensures { out.new ≡ put_out out.old (words numbers.now) }
{
    if out.len() < 4 * numbers.len() {
        return;
    }
    for (i, number) in numbers.iter().enumerate() {
        image::put32(out, 4 * i, (*number % 4294967296) as u32);
    }
}

// Puts the fields of an entry, as stored.
pub fn entry_fields(out: &mut [u8], e: EntryFields)
    ensures { out.new ≡ put_out out.old (fields e.name e.attr e.time e.date e.start e.size) }
{
    if out.len() < 22 {
        return;
    }
    image::copy_in(out, 0, &e.name);
    out[11] = e.attr;
    image::put16(out, 12, e.time);
    image::put16(out, 14, e.date);
    image::put16(out, 16, e.start);
    image::put32(out, 18, e.size);
}
