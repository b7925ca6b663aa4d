// The worked numbers that need no volume, by topic.
ghost use Rattle.std.specs.Prelude.{◌≤◌, ◌≡◌};
ghost use Rattle.diskette.specs.Aids.Usable.{Usable};
ghost use Rattle.diskette.specs.Places.{last_cluster, sector_of};

use calls::refusal::Refusal;
use diskette::Kind;
use stamps::Stamp;
use std::io;
use std::io::Write;

// P1 and P2: entries of a table that starts at byte 0.
pub fn table_entries(out: &mut impl Write) -> io::Result<()> {
    let mut bytes = [0xFDu8, 0xFF, 0xFF, 0x03, 0x40, 0x00];
    let two = table::entry_at(&bytes, 0, 2);
    let three = table::entry_at(&bytes, 0, 3);
    writeln!(out, "P1 entry 2 is {two:03X}, entry 3 is {three:03X}")?;
    table::set_at(&mut bytes, 0, 3, 0xFFF);
    writeln!(out, "P2 {:02X} {:02X} {:02X}", bytes[3], bytes[4], bytes[5])
}

// The sector at which cluster n of the kind starts: that of its first byte, where read, write and view find it.
fn sector_of(k: Kind, n: usize) -> usize
    requires usable { Usable k }
    requires le_n { 2 ≤ n }
    requires n_bound { n ≤ last_cluster k }
    ensures { result ≡ sector_of k n }
{
    contents::byte_in(512 * k.first_data(), k.cluster_bytes(), n, 0) / 512
}

// The same by the kind's byte, and 0 where the kind has no such cluster.
fn sector(byte: u8, n: usize) -> usize {
    match Kind::named(byte) {
        Some(k) => {
            if n < 2 || k.last_cluster() < n {
                return 0;
            }
            sector_of(k, n)
        }
        None => 0,
    }
}

// P3 to P5.
pub fn sectors(out: &mut impl Write) -> io::Result<()> {
    writeln!(out, "P3 FD, cluster 2 is sector {}", sector(Kind::FD, 2))?;
    writeln!(out, "P4 cluster 355 is sector {}", sector(Kind::FD, 355))?;
    writeln!(
        out,
        "P5 FE, cluster 314 is sector {}",
        sector(Kind::FE, 314)
    )
}

// A stamp of 1983-09-01.
pub fn at(hour: u32, minute: u32, step: u32) -> Stamp {
    Stamp {
        hour,
        minute,
        step,
        year: 3,
        month: 9,
        day: 1,
    }
}

// That at 18:05 and a two-second step.
pub fn evening(step: u32) -> Stamp {
    at(18, 5, step)
}

// P6 and P7.
pub fn stamps(out: &mut impl Write) -> io::Result<()> {
    match evening(29).pack() {
        Some((time, date)) => {
            writeln!(out, "P6 1983-09-01 is {date:04X}")?;
            writeln!(out, "P7 18:05:58 is {time:04X}")
        }
        None => writeln!(out, "P6 is refused by {}", Refusal::OutOfRange.number()),
    }
}

// How many clusters of an FE diskette a file of that size needs.
fn clusters(size: u32) -> usize {
    match Kind::named(Kind::FE) {
        Some(k) => k.needed_for(size),
        None => 0,
    }
}

// P11 to P13.
pub fn sizes(out: &mut impl Write) -> io::Result<()> {
    writeln!(out, "P11 size 512 on FE needs {}", clusters(512))?;
    writeln!(out, "P12 513 needs {}", clusters(513))?;
    writeln!(out, "P13 0 needs {}", clusters(0))
}
