// The anchoring event that is used, and its seals, out of lent bytes (docs/RULES.md, "Anchoring events").
ghost use Rattle.std.specs.Prelude.{◌≡◌};
ghost use Rattle.registry_seals.specs.SealSections.{chosen, seal_section, chosen_seals, anchor_seals};

use cesr::{Matter, Said};
use cesr_sn::Sn;
use codec_cursor::Cursor;

// What stands behind prefix, sn and said: no bytes where the event is shorter.
fn seal_section<'a>(event: &'a [u8]) -> &'a [u8]
    ensures { result.now ≡ seal_section event.now }
{
    match event.get(82..) {
        Some(section) => section,
        None => &[],
    }
}

// The evidence's event where it carries one, else the message's. One that is not there has no bytes.
pub fn chosen<'a>(evidence: &'a [u8], message: &'a [u8]) -> &'a [u8]
    ensures { result.now ≡ chosen evidence.now message.now }
{
    if evidence.is_empty() {
        return message;
    }
    evidence
}

// The seals of that event.
pub fn chosen_seals<'a>(evidence: &'a [u8], message: &'a [u8]) -> &'a [u8]
    ensures { result.now ≡ chosen_seals evidence.now message.now }
{
    seal_section(chosen(evidence, message))
}

// Whether a section holds exactly one seal, the event seal with this i, s and d. The seal is compared where it stands. The tests are joined by `&`, with no branch: most seals pass them all.
pub fn anchor_seals(section: &[u8], i: Matter, s: Sn, d: Said) -> bool
    ensures { result ≡ anchor_seals section.now i s d }
{
    let kind = Cursor::start().count(section, 1).byte(section);
    let from = kind.next;
    let number = from.pass_identifier(section);
    let digest = number.advance(section, 16);
    let next = digest.pass_said(section);
    let whole = next.ok & (next.at == section.len());
    let t = Sn::read(section, number.at);
    let wanted = i.same_at(section, from.at) & ((t == s) & d.0.same_at(section, digest.at));
    (kind.value == 4) & (whole & wanted)
}
