// Makes the volume of document 01's listing case by the calls, and writes its system area to standard output.
#![tactic(auto)]

use calls::refusal::Refusal;
use closing::close::close;
use creating::create::create;
use formatting::format::format;
use stamps::Stamp;
use std::io;
use std::io::Write;
use writing::write::write;

// That time of 1983-09-01, in two-second steps.
fn at(hour: u32, minute: u32, step: u32) -> Stamp {
    Stamp {
        hour,
        minute,
        step,
        year: 3,
        month: 9,
        day: 1,
    }
}

// Creates a file, writes the bytes and closes it, all at one time.
fn make(
    img: &mut [u8],
    t: &mut [u8],
    name: &[u8],
    attr: u32,
    bytes: &[u8],
    time: Stamp,
) -> Result<u32, Refusal> {
    let handle = create(img, t, name, attr, time)?;
    write(img, t, handle, bytes)?;
    close(img, t, handle, time)
}

// Makes the image a volume of the kind FE with the two files.
fn make_volume(img: &mut [u8], t: &mut [u8]) -> Result<(), Refusal> {
    format(img, 0xFE)?;
    make(img, t, b"TARE.KEY", 0x01, &[0u8; 40], at(6, 40, 0))?;
    make(img, t, b"DAY001.LOG", 0x00, &[0u8; 1025], at(18, 5, 29))?;
    Ok(())
}

fn main(rt: HostRuntime) -> io::Result<()> {
    let mut img = [0u8; 163840];
    let mut t = [0u8; 16];
    match make_volume(&mut img, &mut t) {
        Ok(()) => io::writer(&rt).write_all(&img[0..3584]),
        Err(refusal) => eprintln!(rt; "refused by {}", refusal.number()),
    }
}
