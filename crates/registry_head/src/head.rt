// The bytes of a credential state, which are also what a registry state begins with. All 115 bytes are stored or none, and the answer says which.
ghost use Rattle.std.specs.Prelude.{◌≡◌};
ghost use Rattle.laws.specs.Room.{room, put};
ghost use Rattle.cesr.specs.Primitives.{read_matter};
ghost use Rattle.registry_head.specs.HeadBytes.{head_bytes};

use crate::{HeadParts, HeadPlaces};
use cesr_number::number::has_room;
use cesr_write::matter::{copy_matter, write_matter};

pub fn write_credential(out: &mut [u8], at: usize, head: &HeadParts) -> bool
    ensures { (result ≡ room out.old at 115) × (out.new ≡ put out.old at (head_bytes head.now.first head.now.second head.now.sn head.now.last)) }
{
    if !has_room(out.len(), at, 115) {
        return false;
    }
    write_matter(head.first, out, at);
    write_matter(head.second, out, at + 33);
    head.sn.write(out, at + 66);
    write_matter(head.last, out, at + 82);
    true
}

// Its primitives are copied from where they stand. It is stored from the start of `out` on.
pub fn copy_credential(held: &[u8], s: &[u8], head: &HeadPlaces, out: &mut [u8]) -> bool
    ensures { (result ≡ room out.old 0 115) × (out.new ≡ put out.old 0 (head_bytes (read_matter held.now head.now.first) (read_matter held.now head.now.second) head.now.sn (read_matter s.now head.now.last))) }
{
    if !has_room(out.len(), 0, 115) {
        return false;
    }
    copy_matter(held, head.first, out, 0);
    copy_matter(held, head.second, out, 33);
    head.sn.write(out, 66);
    copy_matter(s, head.last, out, 82);
    true
}
