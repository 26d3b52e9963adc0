// The next state of a registry, before it is written: what it is made of, and how many bytes it has.
ghost use Rattle.std.specs.Prelude.{◌≡◌, leb, length};
ghost use Rattle.registry_room.specs.NextStates.{next_bytes};

use crate::NextState;
use codec::section::at_most_16;
use registry_members::state::surviving;
use registry_rotation::InBytes;

// How many bytes a next state has. It is handed on by value, here and where it is written: of a struct behind a reference the prover does not know how long its arrays are, so the bound of the sum was not proved.
pub fn next_size(held: &[u8], s: &[u8], p: NextState) -> usize
    ensures { result ≡ length (next_bytes held.now s.now p) }
{
    let current = InBytes {
        bytes: held,
        list: p.current,
    };
    let cuts = InBytes {
        bytes: s,
        list: p.cuts,
    };
    let count = surviving(current, cuts) + at_most_16(p.additions.count);
    121 + p.configs.size() + 33 * count
}

// Whether so many bytes are enough. Where they are enough for all members, the cuts among them too, the survivors need not be counted.
pub fn is_enough(held: &[u8], s: &[u8], p: NextState, bytes: usize) -> bool
    ensures { result ≡ leb (length (next_bytes held.now s.now p)) bytes }
{
    let count = at_most_16(p.current.count) + at_most_16(p.additions.count);
    if 121 + p.configs.size() + 33 * count <= bytes {
        return true;
    }
    next_size(held, s, p) <= bytes
}
