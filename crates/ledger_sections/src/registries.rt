// The section of registries but for its loops: how many it has, its count written where there is room for all of it, one registry read (docs/RULES.md, "Image").
ghost use Rattle.std.specs.Prelude.{◌≡◌, cond, min, leb, length};
ghost use Rattle.laws.specs.Number.{digits};
ghost use Rattle.laws.specs.Room.{put};
ghost use Rattle.registry_state.specs.States.{read_registry};
ghost use Rattle.ledger_step.specs.Ledgers.{held_of};
ghost use Rattle.ledger_sections.specs.RegistrySections.{held_read};

use codec_cursor::{Cursor, Read};
use ledger_image::image::write_count;
use registry_state::RegistryState;

// How many registries the section has: the count, but no more than 16 and than the slice has.
pub fn section_count(count: usize, len: usize) -> usize
    ensures { result ≡ min (min count 16) len }
{
    count.min(16).min(len)
}

// The section's count, where the buffer has room for the whole section. It answers how many registries have to follow: none where there is no room.
pub fn write_head(out: &mut [u8], count: usize, len: usize, size: usize) -> usize
    ensures { (result ≡ cond (leb size (length out.old)) (min (min count 16) len) 0) × (out.new ≡ cond (leb size (length out.old)) (put out.old 0 (digits 2 (min (min count 16) len))) out.old) }
{
    let n = section_count(count, len);
    if size <= out.len() {
        write_count(out, 0, n);
        return n;
    }
    0
}

// The registry at a cursor, as it is held.
pub fn read_next(c: Cursor, image: &[u8]) -> Read<RegistryState>
    ensures { (held_of result.value ≡ held_read (read_registry image.now c).value) × (result.next ≡ (read_registry image.now c).next) }
{
    RegistryState::read(c, image)
}
