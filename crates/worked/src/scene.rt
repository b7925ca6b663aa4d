// P8 to P10: what close and seek answer on a volume with an open file.
use crate::run;
use calls::refusal::Refusal;
use closing::close::close;
use creating::create::create;
use formatting::format::format;
use seeking::seek::seek;
use std::io;
use std::io::Write;

// Prints what a call answered: its value behind the first label, or the number that refused it behind the second.
pub fn answer(
    out: &mut impl Write,
    well: &str,
    refused: &str,
    a: Result<u32, Refusal>,
) -> io::Result<()> {
    match a {
        Ok(value) => writeln!(out, "{well}{value}"),
        Err(refusal) => writeln!(out, "{refused}{}", refusal.number()),
    }
}

// The handle of a new file on a blank volume.
fn open_new(img: &mut [u8], t: &mut [u8]) -> Result<u32, Refusal> {
    format(img, 0xFE)?;
    create(img, t, b"TARE.KEY", 0, run::evening(29))
}

// Seeks from pointer 10 by method 1.
fn from_ten(img: &[u8], t: &mut [u8], handle: u32, offset: i32) -> Result<u32, Refusal> {
    seek(img, t, handle, 0, 10)?;
    seek(img, t, handle, 1, offset)
}

// What they answer by the handle.
fn by_handle(out: &mut impl Write, img: &mut [u8], t: &mut [u8], handle: u32) -> io::Result<()> {
    answer(
        out,
        "P8 two-second step 30 is taken: ",
        "P8 two-second step 30 gives ",
        close(img, t, handle, run::evening(30)),
    )?;
    answer(
        out,
        "P9 pointer 10, method 1, offset -10 gives ",
        "P9 is refused by ",
        from_ten(img, t, handle, -10),
    )?;
    answer(
        out,
        "P10 offset -11 gives ",
        "P10 -11 is refused by ",
        from_ten(img, t, handle, -11),
    )
}

pub fn answers(out: &mut impl Write) -> io::Result<()> {
    let mut img = [0u8; 163840];
    let mut t = [0u8; 16];
    match open_new(&mut img, &mut t) {
        Ok(handle) => by_handle(out, &mut img, &mut t, handle),
        Err(refusal) => writeln!(out, "P8 to P10 are refused by {}", refusal.number()),
    }
}
