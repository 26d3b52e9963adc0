// A seal: its kind byte, and of an event seal its identifier, number and digest (docs/RULES.md, "Bytes").
ghost use Rattle.std.specs.Prelude.{◌≡◌, ◌&&◌, leb};
ghost use Rattle.codec.specs.Readers.{section};
ghost use Rattle.codec.specs.Events.{seal_of, read_event_seal, read_other_seal, read_seal};

use codec::section::count_up_to;
use codec::{Cursor, Read};
use events_seal::{Identifier, Seal};

// A seal that is no event seal: no rule reads its content, and it has no bytes but its kind. A `From<u8>` would make a seal of 4 too, and a variant with fields has no discriminant to compare with.
#[tactic(auto, unfolding(codec::specs::Events::seal_of))]
fn seal_of(kind: u8) -> Seal
    ensures { result ≡ seal_of kind }
{
    match kind {
        1 => Seal::Digest,
        2 => Seal::Root,
        3 => Seal::Source,
        5 => Seal::Last,
        6 => Seal::Back,
        7 => Seal::Kind,
        _ => Seal::Opaque,
    }
}

// An event seal, behind its kind.
#[tactic(auto, unfolding(codec::specs::Events::read_event_seal))]
fn read_event_seal(c: Cursor, s: &[u8]) -> Read<Seal>
    ensures { result ≡ read_event_seal s.now c }
{
    let i = c.identifier(s);
    let n = i.next.sn(s);
    let d = n.next.said(s);
    let value = Seal::Event {
        i: Identifier::from_matter(i.value),
        s: n.value,
        d: d.value,
    };
    Read {
        value,
        next: d.next,
    }
}

// A seal's kind is 1 to 8.
fn is_seal_kind(kind: u8) -> bool
    ensures { result ≡ (leb 1 kind && leb kind 8) }
{
    (1..=8).contains(&kind)
}

fn read_other_seal(c: Cursor, s: &[u8]) -> Read<Seal>
    ensures { result ≡ read_other_seal s.now c }
{
    let k = c.byte(s);
    let kind = k.value;
    let next = k.next.expect_that(is_seal_kind(kind));
    let value = seal_of(kind);
    Read { value, next }
}

#[tactic(auto, unfolding(codec::specs::Events::read_seal))]
pub fn read_seal(c: Cursor, s: &[u8]) -> Read<Seal>
    ensures { result ≡ read_seal s.now c }
{
    let k = c.byte(s);
    if k.value == 4 {
        return read_event_seal(k.next, s);
    }
    read_other_seal(c, s)
}

// Behind a seal that is not wanted. It is held to its layout.
fn pass_seal(c: Cursor, s: &[u8]) -> Cursor
    ensures { result ≡ (read_seal s.now c).next }
{
    let k = c.byte(s);
    let kind = k.value;
    if kind == 4 {
        return k.next.pass_identifier(s).advance(s, 16).pass_said(s);
    }
    k.next.expect_that(is_seal_kind(kind))
}

// Behind a section of at most 8 seals, each held to its layout. The seals stay in the bytes.
pub fn pass_seals(c: Cursor, s: &[u8]) -> Cursor
    ensures { result ≡ (section 8 read_seal s.now c).next }
{
    let seals = count_up_to(c, s, 8);
    let count = seals.value;
    let mut next = seals.next;
    for _i in 0..count {
        next = pass_seal(next, s);
    }
    next
}
