// Bytes as the volume holds them: runs stored and read, numbers with the low byte first.
#![tactic(auto)]

ghost use Rattle.std.specs.Prelude.{◌≡◌, ◌+◌, ◌≤◌, length, replicate};
ghost use Rattle.image.specs.Store.{stored};
ghost use Rattle.image.specs.Numbers.{number, digits};

// The number in the two bytes from byte at on.
// (A function for each width: each is one line, by the method of its own type.)
pub fn get16(s: &[u8], at: usize) -> u16
    requires { at + 2 ≤ length s.now }
    ensures { result ≡ number s.now at 2 }
{
    u16::from_le_bytes([s[at], s[at + 1]])
}

// Stores a number in the two bytes from byte at on.
pub fn put16(s: &mut [u8], at: usize, n: u16)
    requires { at + 2 ≤ length s.old }
    ensures { s.new ≡ stored s.old at (digits n 2) }
{
    s[at..at + 2].copy_from_slice(&n.to_le_bytes());
}

// The number in the four bytes from byte at on.
pub fn get32(s: &[u8], at: usize) -> u32
    requires { at + 4 ≤ length s.now }
    ensures { result ≡ number s.now at 4 }
{
    u32::from_le_bytes([s[at], s[at + 1], s[at + 2], s[at + 3]])
}

// Stores a number in the four bytes from byte at on.
pub fn put32(s: &mut [u8], at: usize, n: u32)
    requires { at + 4 ≤ length s.old }
    ensures { s.new ≡ stored s.old at (digits n 4) }
{
    s[at..at + 4].copy_from_slice(&n.to_le_bytes());
}

// Stores the bytes of src from byte at on.
pub fn copy_in(s: &mut [u8], at: usize, src: &[u8])
    requires { at + length src.now ≤ length s.old }
    ensures { s.new ≡ stored s.old at src.now }
{
    // Not by copy_from_slice, which calls memmove: the archive for C wants memset alone from outside.
    for (i, byte) in src.iter().enumerate() {
        s[at + i] = *byte;
    }
}

// Stores the byte v n times, from byte at on.
pub fn fill(s: &mut [u8], at: usize, n: usize, v: u8)
    requires { at + n ≤ length s.old }
    ensures { s.new ≡ stored s.old at (replicate n v) }
{
    s[at..at + n].fill(v);
}
