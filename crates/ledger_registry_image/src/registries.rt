// Registries behind a slice, and the bytes that an image has of them: how many, how they are written, how they are read (docs/RULES.md, "Image").
ghost use Rattle.std.specs.Prelude.{◌≡◌, ◌+◌, ◌≤◌, length};
ghost use Rattle.std.proofs.lemmas.List.Edits.{sets};
ghost use Rattle.laws.specs.Room.{put};
ghost use Rattle.registry_state.specs.States.{view_registry, registry_bytes};
ghost use Rattle.ledger_sections.specs.RegistrySections.{section_of, Stored};

use codec_cursor::Cursor;
use ledger_sections::registries::{read_next, section_count, write_head};
use registry_state::RegistryState;

// The size with one registry more, which has at most 657 bytes.
fn size_with(size: usize, g: RegistryState) -> usize
    requires { size ≤ 10000 }
    ensures { (result ≡ size + length (registry_bytes (view_registry g))) × (result ≤ size + 657) }
{
    size + g.size()
}

// How many bytes the section of the first `count` registries has.
pub fn registries_size(registries: &[RegistryState], count: usize) -> usize
    ensures { result ≡ length (section_of registries.now count) }
{
    let n = section_count(count, registries.len());
    let mut size = 2;
    for i in 0..n {
        size = size_with(size, registries[i]);
    }
    size
}

// One registry more, and the place behind it.
fn write_next(out: &mut [u8], at: usize, g: RegistryState) -> usize
    requires { at + length (registry_bytes (view_registry g)) ≤ length out.old }
    ensures { (result ≡ at + length (registry_bytes (view_registry g))) × (out.new ≡ sets out.old at (registry_bytes (view_registry g))) }
{
    g.write(out, at);
    at + g.size()
}

// The section of the first `count` registries is written at the buffer's start, all its bytes or none.
pub fn write_registries(registries: &[RegistryState], count: usize, out: &mut [u8])
    ensures { out.new ≡ put out.old 0 (section_of registries.now count) }
{
    let size = registries_size(registries, count);
    let n = write_head(out, count, registries.len(), size);
    let mut at = 2;
    for i in 0..n {
        at = write_next(out, at, registries[i]);
    }
}

// The first `count` registries are read from the image, one behind the other from byte 2 on, and stored from the first place on, as many as the slice has places for. The other places stay.
pub fn store_registries(image: &[u8], count: usize, registries: &mut [RegistryState])
    ensures { Stored image.now count registries.old registries.new }
{
    let n = count.min(registries.len());
    let mut c = Cursor { ok: true, at: 2 };
    for i in 0..n {
        let r = read_next(c, image);
        registries[i] = r.value;
        c = r.next;
    }
}
