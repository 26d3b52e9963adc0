// The inception of a registry (docs/RULES.md, "Orders", "Next states").
ghost use Rattle.std.specs.Prelude.{◌≤◌, ◌≡◌, true, IfOk};
ghost use Rattle.cesr.specs.Primitives.{read_matter, said_at};
ghost use Rattle.events_tel.specs.TelEvents.{members_in};
ghost use Rattle.events_tel.specs.Configs.{view_configs};
ghost use Rattle.registry_authentication.specs.States.{view_registry, no_registry, well_registry};
ghost use Rattle.registry_authentication.specs.Attempts.{view_attempt, Anchored};
ghost use Rattle.registry_inception.specs.InceptionFolds.{threshold_fits, vcp_answer, incept_answer, incepted_at, inception_at, incept_of, view_outcome};

use crate::Inception;
use cesr::{Matter, Said};
use cesr_sn::Sn;
use codec::section::{at_most_16, members_in};
use events_tel::Kind;
use events_toad::Toad;
use registry_answer::answer::accept_if;
use registry_authentication::issuer::{issuer_kind, message_anchored, names_issuer};
use registry_authentication::{Attempt, RegistryState};
use registry_backing::backing::enough_receipts;
use registry_error::{Answer, RegistryRejection};
use registry_rotation::{InBytes, check_members};

// Whether so many backers can meet the toad.
pub fn threshold_fits(toad: Toad, backers: usize) -> Answer
    ensures { result ≡ threshold_fits toad.0 backers }
{
    let exact = toad.is_exact(backers);
    accept_if(exact, RegistryRejection::BackerThreshold)
}

// A vcp's checks behind its kind.
fn vcp_answer(a: &Attempt, s: &[u8]) -> Answer
    requires { Anchored s.now a.now }
    ensures { result ≡ vcp_answer (said_at s.now a.now.event.said) (read_matter s.now a.now.event.issuer) a.now.event.toad.0 (view_configs a.now.event.configs) (members_in s.now a.now.event.backers) (view_attempt s.now a.now) }
{
    let issuer = Matter::read(s, a.event.issuer);
    if !names_issuer(s, a.evidence, issuer) {
        return Err(RegistryRejection::InconsistentIssuer);
    }
    let count = at_most_16(a.event.backers.count);
    if a.event.configs.no_backers() & !(count == 0) {
        return Err(RegistryRejection::NoBackersWithBackers);
    }
    check_members(InBytes {
        bytes: s,
        list: a.event.backers,
    })?;
    threshold_fits(a.event.toad, count)?;
    let said = Said::read(s, a.event.said);
    message_anchored(s, a, issuer, said, Sn { hi: 0, lo: 0 })?;
    enough_receipts(s, a.signatures, count, a.event.toad)
}

// An attempt's checks.
fn incept_answer(a: &Attempt, s: &[u8]) -> Answer
    requires { Anchored s.now a.now }
    ensures { result ≡ incept_answer (view_attempt s.now a.now) }
{
    issuer_kind(a.evidence)?;
    match a.event.kind {
        Kind::Vcp => vcp_answer(a, s),
        _ => Err(RegistryRejection::NotRegistryInception),
    }
}

// The first event of a registry, which stays in its bytes.
pub fn incept_read(s: &[u8]) -> Result<Inception, RegistryRejection>
    ensures { inception_at s.now result ≡ incept_of s.now }
{
    let Some(a) = Attempt::decode(s) else {
        return Err(RegistryRejection::Malformed);
    };
    incept_answer(&a, s)?;
    Ok(Inception {
        said: a.event.said,
        issuer: a.event.issuer,
        toad: a.event.toad,
        configs: a.event.configs,
        backers: a.event.backers,
    })
}

// The state that the places of an inception stand for.
fn incepted(r: Inception, s: &[u8]) -> RegistryState
    ensures view { view_registry result ≡ incepted_at s.now r }
    ensures counts { (result.configs.count ≤ 8) × (result.backers.count ≤ 16) }
{
    let said = Said::read(s, r.said);
    RegistryState {
        id: said,
        issuer: Matter::read(s, r.issuer),
        sn: Sn { hi: 0, lo: 0 },
        latest: said,
        toad: r.toad,
        configs: r.configs.trimmed(),
        backers: members_in(s, r.backers),
    }
}

// The first event of a registry, and its state as a value.
pub fn incept_with_evidence(s: &[u8]) -> Result<RegistryState, RegistryRejection>
    ensures outcome { view_outcome no_registry result ≡ incept_of s.now }
    ensures within { IfOk result (λ g. well_registry g ≡ true) }
{
    let r = incept_read(s)?;
    Ok(incepted(r, s))
}
