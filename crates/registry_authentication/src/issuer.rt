// The issuer's evidence and the anchoring event (docs/RULES.md, "Evidence", "Anchoring events").
ghost use Rattle.std.specs.Prelude.{ℕ, ◌≡◌, List};
ghost use Rattle.cesr.specs.Primitives.{said_at};
ghost use Rattle.registry_wire.specs.Sources.{listed, sources_in};
ghost use Rattle.registry_wire.specs.Attempts.{evidence_in, carried_in, part_of};
ghost use Rattle.registry_seals.specs.SealSections.{chosen as chosenEvent};
ghost use Rattle.registry_authentication.specs.Issuers.{issuer_kind, names_issuer, anchored_in, authenticate_in};

use cesr::{Matter, Said};
use cesr_sn::Sn;
use registry_answer::answer::accept_if;
use registry_error::{Answer, RegistryRejection};
use registry_seals::seals::{anchor_seals, chosen, chosen_seals};
use registry_wire::{Attempt, EvidenceAt, Part, Source};

// What an anchoring event's one seal has to name: the event's identifier, its sn and its said.
#[derive(Clone, Copy)]
pub struct Sealed {
    pub id: Said,
    pub sn: Sn,
    pub said: Said,
}

// Whether the evidence that is due, Issuer, is there, whatever it holds.
pub fn issuer_kind(evidence: EvidenceAt) -> Answer
    ensures { (b : List ℕ) → result ≡ issuer_kind (evidence_in b evidence) }
{
    match evidence {
        EvidenceAt::Missing => Err(RegistryRejection::MissingIssuer),
        EvidenceAt::Issuer {
            prefix: _,
            carried: _,
        } => Ok(()),
        _ => Err(RegistryRejection::InconsistentIssuer),
    }
}

// Whether it is Issuer and its prefix this one.
pub fn names_issuer(s: &[u8], evidence: EvidenceAt, issuer: Matter) -> bool
    ensures { result ≡ names_issuer (evidence_in s.now evidence) issuer }
{
    match evidence {
        EvidenceAt::Issuer { prefix, carried: _ } => issuer.same_at(s, prefix),
        _ => false,
    }
}

// The anchoring event, the evidence's where that has bytes, against the issuer, the source and the event's own coordinate.
pub fn verify_kel_anchor<'a>(
    evidence: &'a [u8],
    message: &'a [u8],
    source: Option<Source>,
    issuer: Matter,
    own: Sealed,
) -> Answer
    ensures { result ≡ anchored_in issuer own.id own.sn own.said (listed source) (chosenEvent evidence.now message.now) }
{
    let event = chosen(evidence, message);
    let source = source.ok_or(RegistryRejection::MissingAnchor)?;
    if event.is_empty() {
        return Err(RegistryRejection::MissingAnchor);
    }
    let at = Sn::read(event, 33);
    let digest = source.said.0;
    let head = issuer.same_at(event, 0) & ((at == source.sn) & digest.same_at(event, 49));
    let sealed = anchor_seals(chosen_seals(evidence, message), own.id.0, own.sn, own.said);
    accept_if(head & sealed, RegistryRejection::InconsistentAnchor)
}

// The message's anchoring event alone: of vcp, bis and brv.
pub fn message_anchored(s: &[u8], a: &Attempt, issuer: Matter, id: Said, sn: Sn) -> Answer
    ensures { result ≡ anchored_in issuer id sn (said_at s.now a.now.event.said) (sources_in s.now a.now.source) (part_of s.now a.now.anchor) }
{
    let none = Part { from: 0, to: 0 };
    let said = Said::read(s, a.event.said);
    verify_kel_anchor(
        none.bytes(s),
        a.anchor.bytes(s),
        Source::stated(a.source, s),
        issuer,
        Sealed { id, sn, said },
    )
}

// The issuer's evidence, and the anchoring event that it carries, else the message's: of vrt, iss and rev.
pub fn authenticate_issuer(s: &[u8], a: &Attempt, issuer: Matter, id: Said, sn: Sn) -> Answer
    ensures { result ≡ authenticate_in issuer id sn (said_at s.now a.now.event.said) (evidence_in s.now a.now.evidence) (sources_in s.now a.now.source) (chosenEvent (part_of s.now (carried_in a.now.evidence)) (part_of s.now a.now.anchor)) }
{
    issuer_kind(a.evidence)?;
    if !names_issuer(s, a.evidence, issuer) {
        return Err(RegistryRejection::InconsistentIssuer);
    }
    let said = Said::read(s, a.event.said);
    verify_kel_anchor(
        a.evidence.carried().bytes(s),
        a.anchor.bytes(s),
        Source::stated(a.source, s),
        issuer,
        Sealed { id, sn, said },
    )
}
