// The next state of a registry, written. Nothing that has 33 bytes is read into a value: it is copied from where it stands.
ghost use Rattle.std.specs.Prelude.{◌≡◌, ◌+◌, ◌*◌, ◌≤◌, length, is_ok, MatchResult};
ghost use Rattle.std.proofs.lemmas.List.Edits.{sets};
ghost use Rattle.laws.specs.Room.{room, put};
ghost use Rattle.events_tel.specs.TelEvents.{members_in};
ghost use Rattle.codec.specs.Layout.{joined, section_bytes, prefix_bytes};
ghost use Rattle.registry_members.specs.Updated.{survivors};
ghost use Rattle.registry_room.specs.NextStates.{next_members, next_bytes};

use crate::TooShort;
use cesr_write::matter::copy_matter;
use codec::section::at_most_16;
use events_tel::Listed;
use registry_bytes::writer::copy_front;
use registry_bytes::{HeadPlaces, Terms};
use registry_room::NextState;
use registry_room::next::{is_enough, next_size};
use registry_rotation::deltas::found_in;

// Those that are not cut, stored behind a byte.
fn copy_survivors(held: &[u8], current: Listed, s: &[u8], cuts: Listed, out: &mut [u8]) -> usize
    requires { 1 + 33 * length (survivors (members_in s.now cuts) (members_in held.now current)) ≤ length out.old }
    ensures left { result ≡ length (survivors (members_in s.now cuts) (members_in held.now current)) }
    ensures stored { out.new ≡ sets out.old 1 (joined prefix_bytes (survivors (members_in s.now cuts) (members_in held.now current))) }
{
    let n = at_most_16(current.count);
    let m = at_most_16(cuts.count);
    let mut c = current.start;
    let mut left: usize = 0;
    for _i in 0..n {
        let from = c.at;
        let p = c.prefix(held);
        c = p.next;
        if !found_in(s, cuts.start, m, p.value) {
            copy_matter(held, from, out, 1 + 33 * left);
            left += 1;
        }
    }
    left
}

// The prefixes of a list, stored from a place on.
fn copy_members(s: &[u8], list: Listed, out: &mut [u8], at: usize)
    requires { at + 33 * length (members_in s.now list) ≤ length out.old }
    ensures { out.new ≡ sets out.old at (joined prefix_bytes (members_in s.now list)) }
{
    let n = at_most_16(list.count);
    let mut c = list.start;
    for i in 0..n {
        copy_matter(s, c.at, out, at + 33 * i);
        c = c.pass_prefix(s);
    }
}

// The section of the backers: survivors, then additions. Answers how many they are, since that is known when the survivors are stored.
#[tactic(auto, using(registry_room::proofs::Counts::counted))]
fn copy_backers(held: &[u8], s: &[u8], p: NextState, out: &mut [u8]) -> usize
    requires { 1 + 33 * length (next_members held.now s.now p) ≤ length out.old }
    ensures count { result ≡ length (next_members held.now s.now p) }
    ensures stored { out.new ≡ sets out.old 0 (section_bytes prefix_bytes (next_members held.now s.now p)) }
{
    let left = copy_survivors(held, p.current, s, p.cuts, out);
    let count = left + at_most_16(p.additions.count);
    out[0] = count as u8;
    copy_members(s, p.additions, out, 1 + 33 * left);
    count
}

// The bytes of a next state, stored from the start of `out` on: all of them or none. Answers how many they are, where they find no room too.
#[tactic(auto, using(crate::proofs::Copies::next_sizes))]
pub fn write_next(held: &[u8], s: &[u8], p: NextState, out: &mut [u8]) -> Result<usize, TooShort>
    ensures size { MatchResult result (λ size. size ≡ length (next_bytes held.now s.now p)) (λ short. short.size ≡ length (next_bytes held.now s.now p)) }
    ensures stored { (is_ok result ≡ room out.old 0 (length (next_bytes held.now s.now p))) × (out.new ≡ put out.old 0 (next_bytes held.now s.now p)) }
{
    if !is_enough(held, s, p, out.len()) {
        let size = next_size(held, s, p);
        return Err(TooShort { size });
    }
    let head = HeadPlaces {
        first: p.id,
        second: p.issuer,
        sn: p.sn,
        last: p.latest,
    };
    let terms = Terms {
        toad: p.toad,
        configs: p.configs,
    };
    copy_front(held, s, &head, terms, out);
    let behind = 115 + terms.size();
    let count = copy_backers(held, s, p, &mut out[behind..]);
    Ok(behind + 1 + 33 * count)
}
