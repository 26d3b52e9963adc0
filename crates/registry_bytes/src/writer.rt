// The bytes of states: how many there are, and how they are stored.
ghost use Rattle.std.specs.Prelude.{◌≡◌, ◌+◌, ◌*◌, ◌≤◌, ◌++◌, length};
ghost use Rattle.std.proofs.lemmas.List.Edits.{sets};
ghost use Rattle.laws.specs.Number.{digits};
ghost use Rattle.laws.specs.Room.{room, put};
ghost use Rattle.cesr.specs.Primitives.{read_matter};
ghost use Rattle.codec_laws.specs.Configs.{view_configs};
ghost use Rattle.events.specs.Members.{view};
ghost use Rattle.codec_laws.specs.Layout.{section_bytes, byte_bytes, prefix_bytes};
ghost use Rattle.registry_bytes.specs.StateBytes.{front_bytes, state_bytes};

use crate::Terms;
use cesr_number::number::{has_room, write_u32};
use cesr_write::matter::write_matter;
use codec_laws::Configs;
use events::Members;
use registry_head::head::{copy_credential, write_credential};
use registry_head::{HeadParts, HeadPlaces};

impl Terms {
    pub fn size(self) -> usize
        ensures { result ≡ 5 + length (view_configs self.configs) }
    {
        5 + self.configs.size()
    }

    fn write(self, out: &mut [u8], at: usize)
        requires { at + (5 + length (view_configs self.configs)) ≤ length out.old }
        ensures { out.new ≡ sets out.old at (digits 4 self.toad.0 ++ section_bytes byte_bytes (view_configs self.configs)) }
    {
        let n = self.configs.size();
        write_u32(out, at, self.toad.value());
        out[at + 4] = n as u8;
        out[at + 5..at + 5 + n].copy_from_slice(&self.configs.codes[..n]);
    }
}

// How many bytes a registry state has: 121, the config bytes, and 33 for each backer.
pub fn state_size(configs: Configs, backers: &Members) -> usize
    ensures { result ≡ 121 + length (view_configs configs) + 33 * length (view backers.now) }
{
    121 + configs.size() + 33 * backers.size()
}

// A registry state. Stores all its bytes or none, and answers which.
pub fn write_registry(
    out: &mut [u8],
    at: usize,
    head: &HeadParts,
    terms: Terms,
    backers: &Members,
) -> bool
    ensures { (result ≡ room out.old at (length (state_bytes head.now.first head.now.second head.now.sn head.now.last terms.toad.0 (view_configs terms.configs) (view backers.now)))) × (out.new ≡ put out.old at (state_bytes head.now.first head.now.second head.now.sn head.now.last terms.toad.0 (view_configs terms.configs) (view backers.now))) }
{
    if !has_room(out.len(), at, state_size(terms.configs, backers)) {
        return false;
    }
    write_credential(out, at, head);
    terms.write(out, at + 115);
    let behind = at + 115 + terms.size();
    write_backers(&mut out[behind..], backers);
    true
}

// A registry state before its backers, from the start of `out` on. Its primitives are copied from where they stand. Stores all its bytes or none, and answers which.
pub fn copy_front(held: &[u8], s: &[u8], head: &HeadPlaces, terms: Terms, out: &mut [u8]) -> bool
    ensures { (result ≡ room out.old 0 (length (front_bytes (read_matter held.now head.now.first) (read_matter held.now head.now.second) head.now.sn (read_matter s.now head.now.last) terms.toad.0 (view_configs terms.configs)))) × (out.new ≡ put out.old 0 (front_bytes (read_matter held.now head.now.first) (read_matter held.now head.now.second) head.now.sn (read_matter s.now head.now.last) terms.toad.0 (view_configs terms.configs))) }
{
    if !has_room(out.len(), 0, 115 + terms.size()) {
        return false;
    }
    copy_credential(held, s, head, out);
    terms.write(out, 115);
    true
}

// The count of the backers, then the backers.
fn write_backers(out: &mut [u8], backers: &Members)
    requires { 1 + 33 * length (view backers.now) ≤ length out.old }
    ensures { out.new ≡ sets out.old 0 (section_bytes prefix_bytes (view backers.now)) }
{
    let n = backers.size();
    out[0] = n as u8;
    for i in 0..n {
        write_matter(backers.items[i].0, out, 1 + 33 * i);
    }
}
