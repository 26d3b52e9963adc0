// The authority of a bis or brv (docs/RULES.md, "Evidence").
ghost use Rattle.std.specs.Prelude.{ℕ, ◌≡◌, List};
ghost use Rattle.cesr.specs.declared.BasicPrefix.{BasicPrefix};
ghost use Rattle.registry_management.specs.Managements.{view_management};
ghost use Rattle.registry_backing.specs.Backings.{own_among, own_where};
ghost use Rattle.registry_wire.specs.Attempts.{evidence_in};
ghost use Rattle.registry_signatures.specs.SignatureSections.{signatures_in};
ghost use Rattle.registry_backer.specs.Backers.{same_registry, stands_at, names_registry, resolved_at, resolved_backer, asks_own};

use cesr::Said;
use cesr_sn::Sn;
use events_seal::Seal;
use registry_answer::answer::accept_if;
use registry_backing::backing::backed_in;
use registry_error::{Answer, RegistryRejection};
use registry_management::{Management, read_management};
use registry_signatures::Counted;
use registry_wire::{Attempt, EvidenceAt};

// Whether two states are of one registry: id, issuer and config are the same.
pub fn same_registry(g: &Management, h: &Management) -> bool
    ensures { (k l : List BasicPrefix) → result ≡ same_registry (view_management g.now k) (view_management h.now l) }
{
    let configs = g.configs.as_slice() == h.configs.as_slice();
    (g.id == h.id) & ((g.issuer == h.issuer) & configs)
}

// Whether a state stands at this sn with this event.
pub fn stands_at(g: Management, s: Sn, d: Said) -> bool
    ensures { (l : List BasicPrefix) → result ≡ stands_at (view_management g l) s d }
{
    (g.sn == s) & (g.latest == d)
}

// Whether a seal names the registry.
pub fn names_registry(seal: Seal, id: Said) -> bool
    ensures { result ≡ names_registry seal id }
{
    match seal {
        Seal::Event { i, s: _, d: _ } => i.matter() == id.0,
        _ => false,
    }
}

// The authority that a seal's s and d and the evidence name, and what it must have signed. BackerAt's state is read from its place in the bytes.
fn resolved_at(s: &[u8], a: &Attempt, g: &Management, sn: Sn, d: Said) -> Answer
    ensures { (l : List BasicPrefix) → result ≡ resolved_at (view_management g.now l) sn d (evidence_in s.now a.now.evidence) (signatures_in s.now a.now.signatures) }
{
    match a.evidence {
        EvidenceAt::Missing => Err(RegistryRejection::UnresolvedAnchor { sn }),
        EvidenceAt::Issuer {
            prefix: _,
            carried: _,
        } => Err(RegistryRejection::InconsistentIssuer),
        EvidenceAt::Backer => {
            accept_if(
                stands_at(*g, sn, d),
                RegistryRejection::UnresolvedAnchor { sn },
            )
        }
        EvidenceAt::BackerAt(c) => {
            let held = read_management(c, s);
            if !(same_registry(&held.value, g) & stands_at(held.value, sn, d)) {
                return Err(RegistryRejection::InconsistentManagement);
            }
            backed_in(s, a.signatures, s, held.backers, held.value.toad)
        }
    }
}

// The authority that the event's seal and the evidence name, and what it must have signed, but for the registry's own backers: their list is the caller's.
pub fn authenticate_backer(s: &[u8], a: &Attempt, g: &Management, seal: Seal) -> Answer
    ensures { (l : List BasicPrefix) → result ≡ resolved_backer (view_management g.now l) seal (evidence_in s.now a.now.evidence) (signatures_in s.now a.now.signatures) }
{
    match seal {
        Seal::Event { i, s: sn, d } => {
            if i.matter() != g.id.0 {
                return Err(RegistryRejection::InconsistentRegistry);
            }
            resolved_at(s, a, g, sn, d)
        }
        _ => Err(RegistryRejection::InconsistentManagement),
    }
}

// The signatures that the registry's own backers are asked about, where the evidence leaves that to them.
pub fn own_signatures(a: &Attempt) -> Option<Counted>
    ensures { (toad : ℕ) (l : List BasicPrefix) (b : List ℕ) → own_among toad l b result ≡ own_where (asks_own (evidence_in b a.now.evidence)) toad l (signatures_in b a.now.signatures) }
{
    match a.evidence {
        EvidenceAt::Backer => Some(a.signatures),
        _ => None,
    }
}
