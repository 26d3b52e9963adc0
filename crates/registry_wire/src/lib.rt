// The bytes around an event: sections 7 to 10, and whole attempts (docs/RULES.md, "Bytes").
#![tactic(auto)]

ghost use Rattle.std.specs.Prelude.{◌≡◌, IfSome};
ghost use Rattle.registry_wire.specs.Attempts.{read_anchor, read_issuer, read_backer_at, read_evidence, passed_anchors, part_of, carried_in, Anchored, ReadAs, view_decoded, decode_of};

use codec::TelEvent;
use codec::section::count_up_to;
use codec_cursor::{Cursor, Read};
use codec_seal::seal::pass_seals;
use codec_tel::tel::read_event;
use registry_signatures::Counted;
use registry_signatures::signatures::pass_signatures;
pub use registry_source::Source;
use registry_source::pass_sources;
pub use registry_state::RegistryState;

// A part of the attempt's bytes. An empty one stands for nothing.
#[derive(Clone, Copy)]
pub struct Part {
    pub from: usize,
    pub to: usize,
}

// What the caller knows about the issuer or the backers, in its places in the bytes: of Issuer the prefix and the anchoring event that it carries, of BackerAt the state.
#[derive(Clone, Copy)]
pub enum EvidenceAt {
    Missing,
    Issuer { prefix: usize, carried: Part },
    Backer,
    BackerAt(Cursor),
}

// All but numbers and the event's own seal stays in the bytes, and the attempt says where it stands.
#[derive(Clone, Copy)]
pub struct Attempt {
    pub event: TelEvent,
    pub source: Option<Cursor>,
    pub anchor: Part,
    pub signatures: Counted,
    pub evidence: EvidenceAt,
}

impl Part {
    // Its bytes in s, as far as they are there.
    pub fn bytes<'a>(self, s: &'a [u8]) -> &'a [u8]
        ensures { result.now ≡ part_of s.now self }
    {
        let to = self.to.min(s.len());
        let from = self.from.min(to);
        &s[from..to]
    }
}

impl EvidenceAt {
    // The part that carries an anchoring event.
    pub fn carried(self) -> Part
        ensures { result ≡ carried_in self }
    {
        match self {
            EvidenceAt::Issuer { prefix: _, carried } => carried,
            _ => Part { from: 0, to: 0 },
        }
    }
}

// Behind an anchoring event, which is held to its layout.
fn pass_anchor(c: Cursor, s: &[u8]) -> Cursor
    ensures { result ≡ (read_anchor s.now c).next }
{
    let sn = c.pass_identifier(s);
    let said = sn.advance(s, 16);
    pass_seals(said.pass_said(s), s)
}

// Behind a section of at most one anchoring event. It stays in the bytes; its part is empty where there is none.
fn pass_anchors(c: Cursor, s: &[u8]) -> Read<Part>
    ensures { result ≡ passed_anchors s.now c }
{
    let n = count_up_to(c, s, 1);
    let start = n.next;
    let from = start.at;
    if n.value == 0 {
        return Read {
            value: Part { from, to: from },
            next: start,
        };
    }
    let next = pass_anchor(start, s);
    Read {
        value: Part { from, to: next.at },
        next,
    }
}

// Evidence 1, behind its byte: a prefix, and a section like that of the message's anchoring event.
fn read_issuer(c: Cursor, s: &[u8]) -> Read<EvidenceAt>
    ensures { ReadAs s.now result (read_issuer s.now c) }
{
    let a = pass_anchors(c.pass_identifier(s), s);
    let value = EvidenceAt::Issuer {
        prefix: c.at,
        carried: a.value,
    };
    Read {
        value,
        next: a.next,
    }
}

// Evidence 3, behind its byte: a registry state.
fn read_backer_at(c: Cursor, s: &[u8]) -> Read<EvidenceAt>
    ensures { ReadAs s.now result (read_backer_at s.now c) }
{
    Read {
        value: EvidenceAt::BackerAt(c),
        next: RegistryState::pass(c, s),
    }
}

fn read_evidence(c: Cursor, s: &[u8]) -> Read<EvidenceAt>
    ensures { ReadAs s.now result (read_evidence s.now c) }
{
    let k = c.byte(s);
    let kind = k.value;
    if kind == 1 {
        return read_issuer(k.next, s);
    }
    if kind == 3 {
        return read_backer_at(k.next, s);
    }
    let next = k.next.expect_that((kind == 0) | (kind == 2));
    if kind == 2 {
        return Read {
            value: EvidenceAt::Backer,
            next,
        };
    }
    Read {
        value: EvidenceAt::Missing,
        next,
    }
}

impl Attempt {
    // None of bytes that break the layout or a limit, or that go on behind section 10.
    pub fn decode(s: &[u8]) -> Option<Attempt>
        ensures view { view_decoded s.now result ≡ decode_of s.now }
        ensures parts { IfSome result (Anchored s.now) }
    {
        let e = read_event(Cursor::start(), s);
        let o = pass_sources(e.next, s);
        let a = pass_anchors(o.next, s);
        let g = pass_signatures(a.next, s);
        let v = read_evidence(g.next.count(s, 1), s);
        let end = v.next;
        if !(end.ok & (end.at == s.len())) {
            return None;
        }
        Some(Attempt {
            event: e.value,
            source: o.value,
            anchor: a.value,
            signatures: g.value,
            evidence: v.value,
        })
    }
}
