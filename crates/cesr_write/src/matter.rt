// A primitive, stored in lent bytes: from its value, or from where it stands. All its 33 bytes are stored or none, and the answer says which.
ghost use Rattle.std.specs.Prelude.{◌≡◌};
ghost use Rattle.laws.specs.Room.{room, put};
ghost use Rattle.cesr.specs.Primitives.{matter_bytes, read_matter};

use cesr::Matter;
use cesr_number::number::{bytes_at, has_room, store, write_u64};

pub fn write_matter(m: Matter, out: &mut [u8], at: usize) -> bool
    ensures { (result ≡ room out.old at 33) × (out.new ≡ put out.old at (matter_bytes m)) }
{
    if !has_room(out.len(), at, 33) {
        return false;
    }
    out[at] = (m.code % 256) as u8;
    write_u64(out, at + 1, m.w0);
    write_u64(out, at + 9, m.w1);
    write_u64(out, at + 17, m.w2);
    write_u64(out, at + 25, m.w3);
    true
}

// The primitive at a place, stored at another without being made a value.
pub fn copy_matter(s: &[u8], from: usize, out: &mut [u8], at: usize) -> bool
    ensures { (result ≡ room out.old at 33) × (out.new ≡ put out.old at (matter_bytes (read_matter s.now from))) }
{
    match bytes_at::<33>(s, from) {
        Some(bytes) => store(out, at, bytes),
        None => write_matter(Matter::none(), out, at),
    }
}
