// The worked numbers that need a volume: a full disk, a full root, a table without places.
use crate::{run, scene};
use calls::refusal::Refusal;
use closing::close::close;
use creating::create::create;
use formatting::format::format;
use freespace::free_space::free_space;
use stamps::Stamp;
use std::io;
use std::io::Write;
use writing::write::write;

// Any time does: 1983-09-01 06:40:00.
fn morning() -> Stamp {
    run::at(6, 40, 0)
}

// How many clusters of a blank FD are free, and what two writes of a byte more than they hold answer.
fn fill_disk(img: &mut [u8], t: &mut [u8]) -> Result<(usize, u32, u32), Refusal> {
    format(img, 0xFD)?;
    let free = free_space(img)?.free;
    let handle = create(img, t, b"FULL", 0, morning())?;
    let bytes = [0x5Au8; 362497];
    let first = write(img, t, handle, &bytes)?;
    let next = write(img, t, handle, &bytes)?;
    Ok((free, first, next))
}

// A blank FD; a file as long as the disk allows.
pub fn full_disk(out: &mut impl Write) -> io::Result<()> {
    let mut img = [0u8; 368640];
    let mut t = [0u8; 16];
    match fill_disk(&mut img, &mut t) {
        Ok((free, first, next)) => {
            writeln!(out, "A blank FD has {free} free clusters")?;
            writeln!(
                out,
                "a write of 362497 bytes answers {first}, the next {next}"
            )
        }
        Err(refusal) => writeln!(out, "A full disk is refused by {}", refusal.number()),
    }
}

// Makes 64 files, as many as the root of an FE has slots.
fn fill_root(img: &mut [u8], t: &mut [u8]) -> Result<(), Refusal> {
    for i in 0..64 {
        let name = [b'A' + i / 8, b'A' + i % 8];
        let handle = create(img, t, &name, 0, morning())?;
        close(img, t, handle, morning())?;
    }
    Ok(())
}

// A file more than the root has slots.
fn overfill_root(img: &mut [u8], t: &mut [u8]) -> Result<u32, Refusal> {
    format(img, 0xFE)?;
    fill_root(img, t)?;
    create(img, t, b"NEW", 0, morning())
}

pub fn full_root(out: &mut impl Write) -> io::Result<()> {
    let mut img = [0u8; 163840];
    let mut t = [0u8; 16];
    scene::answer(
        out,
        "A full root takes a new name: ",
        "A full root and a new name: ",
        overfill_root(&mut img, &mut t),
    )
}

// A file on a blank volume.
fn create_first(img: &mut [u8], t: &mut [u8]) -> Result<u32, Refusal> {
    format(img, 0xFE)?;
    create(img, t, b"NEW", 0, morning())
}

pub fn no_places(out: &mut impl Write) -> io::Result<()> {
    let mut img = [0u8; 163840];
    let mut t = [0u8; 0];
    scene::answer(
        out,
        "An open table of length 0 has a place: ",
        "An open table of length 0: ",
        create_first(&mut img, &mut t),
    )
}
