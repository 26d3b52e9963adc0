// Big-endian numbers in lent bytes (docs/RULES.md, "Bytes").
// A reader answers 0 where the bytes are not all there. A writer stores all its bytes or none, and answers which: that is a test with no value beside it, so it is a bool.
// There is a reader and a writer for each width, since the library turns bytes into numbers by a method of each type. The compiler makes one load, or one store, and a swap of the bytes of each.
ghost use Rattle.std.specs.Prelude.{◌≡◌, ◌+◌, ◌≤◌, ◌<◌, leb, length, take, drop, MatchOption};
ghost use Rattle.laws.specs.Number.{number_at, digits};
ghost use Rattle.laws.specs.Room.{room, put};

// Whether a slice of len bytes has n from at.
pub fn has_room(len: usize, at: usize, n: usize) -> bool
    ensures { result ≡ leb (at + n) len }
{
    if len < at {
        return false;
    }
    n <= len - at
}

// The N bytes from a place, where they are all there.
pub fn bytes_at<const N: usize>(s: &[u8], at: usize) -> Option<&[u8; N]>
    ensures { MatchOption result (length s.now < at + N) (λ bytes. (at + N ≤ length s.now) × (bytes.now ≡ take N (drop at s.now))) }
{
    s.get(at..)?.first_chunk()
}

// Stores N bytes from a place on, and answers whether they found room.
pub fn store<const N: usize>(out: &mut [u8], at: usize, bytes: &[u8; N]) -> bool
    ensures { (result ≡ room out.old at N) × (out.new ≡ put out.old at bytes.now) }
{
    if !has_room(out.len(), at, N) {
        return false;
    }
    out[at..at + N].copy_from_slice(bytes);
    true
}

pub fn read_u8(s: &[u8], at: usize) -> u8
    ensures { result ≡ number_at s.now at 1 }
{
    match s.get(at) {
        Some(byte) => *byte,
        None => 0,
    }
}

pub fn read_u16(s: &[u8], at: usize) -> u16
    ensures { result ≡ number_at s.now at 2 }
{
    match bytes_at(s, at) {
        Some(bytes) => u16::from_be_bytes(*bytes),
        None => 0,
    }
}

pub fn read_u32(s: &[u8], at: usize) -> u32
    ensures { result ≡ number_at s.now at 4 }
{
    match bytes_at(s, at) {
        Some(bytes) => u32::from_be_bytes(*bytes),
        None => 0,
    }
}

pub fn read_u64(s: &[u8], at: usize) -> u64
    ensures { result ≡ number_at s.now at 8 }
{
    match bytes_at(s, at) {
        Some(bytes) => u64::from_be_bytes(*bytes),
        None => 0,
    }
}

pub fn write_u16(out: &mut [u8], at: usize, x: u16) -> bool
    ensures { (result ≡ room out.old at 2) × (out.new ≡ put out.old at (digits 2 x)) }
{
    store(out, at, &x.to_be_bytes())
}

pub fn write_u32(out: &mut [u8], at: usize, x: u32) -> bool
    ensures { (result ≡ room out.old at 4) × (out.new ≡ put out.old at (digits 4 x)) }
{
    store(out, at, &x.to_be_bytes())
}

pub fn write_u64(out: &mut [u8], at: usize, x: u64) -> bool
    ensures { (result ≡ room out.old at 8) × (out.new ≡ put out.old at (digits 8 x)) }
{
    store(out, at, &x.to_be_bytes())
}
