// The fold of a credential's first event, its issue (docs/RULES.md, "Orders", "Next states").
ghost use Rattle.std.specs.Prelude.{◌≡◌, List};
ghost use Rattle.cesr.specs.Primitives.{said_at};
ghost use Rattle.cesr.specs.declared.BasicPrefix.{BasicPrefix};
ghost use Rattle.events_tel.specs.TelEvents.{view_event};
ghost use Rattle.registry_state_credential.specs.CredentialStates.{no_credential};
ghost use Rattle.registry_management.specs.Managements.{view_management};
ghost use Rattle.registry_backer.specs.Attempts.{Anchored, view_attempt, decode_of};
ghost use Rattle.registry_issue.specs.IssueFolds.{iss_answer, issue_at, incept_decoded, incept_of, view_outcome};
ghost use Rattle.registry_issue.specs.IssueParts.{bis_resolved, event_resolved};

use crate::Issue;
use cesr::Said;
use cesr_sn::Sn;
use events_tel::Kind;
use registry_authentication::issuer::{authenticate_issuer, message_anchored};
use registry_backer::Attempt;
use registry_backer::backer::{authenticate_backer, own_signatures};
use registry_backing::backing::own_of;
use registry_error::{Answer, RegistryRejection};
use registry_management::{Management, RegistryState, management_of};
use registry_state_credential::CredentialState;

// An iss's checks behind its kind.
fn iss_answer(g: &Management, a: &Attempt, s: &[u8]) -> Answer
    requires { Anchored s.now a.now }
    ensures { (l : List BasicPrefix) → result ≡ iss_answer (view_management g.now l) (said_at s.now a.now.event.said) (said_at s.now a.now.event.credential) (said_at s.now a.now.event.registry) (view_attempt s.now a.now) }
{
    if !g.id.0.same_at(s, a.event.registry) {
        return Err(RegistryRejection::InconsistentRegistry);
    }
    if !g.configs.no_backers() {
        return Err(RegistryRejection::SimpleEventOnBackerRegistry);
    }
    let credential = Said::read(s, a.event.credential);
    authenticate_issuer(s, a, g.issuer, credential, Sn { hi: 0, lo: 0 })
}

// A bis's checks behind its kind, but for the registry's own backers.
fn bis_answer(g: &Management, a: &Attempt, s: &[u8]) -> Answer
    requires { Anchored s.now a.now }
    ensures { (l : List BasicPrefix) → result ≡ bis_resolved (view_management g.now l) (said_at s.now a.now.event.said) (said_at s.now a.now.event.credential) (said_at s.now a.now.event.registry) a.now.event.seal (view_attempt s.now a.now) }
{
    if !g.id.0.same_at(s, a.event.registry) {
        return Err(RegistryRejection::InconsistentRegistry);
    }
    if g.configs.no_backers() {
        return Err(RegistryRejection::BackedEventOnBackerlessRegistry);
    }
    let credential = Said::read(s, a.event.credential);
    message_anchored(s, a, g.issuer, credential, Sn { hi: 0, lo: 0 })?;
    authenticate_backer(s, a, g, a.event.seal)
}

// The checks of an attempt that was decoded.
fn event_answer(g: &Management, a: &Attempt, s: &[u8]) -> Answer
    requires { Anchored s.now a.now }
    ensures { (l : List BasicPrefix) → result ≡ event_resolved (view_management g.now l) (view_event s.now a.now.event) (view_attempt s.now a.now) }
{
    match a.event.kind {
        Kind::Iss => iss_answer(g, a, s),
        Kind::Bis => bis_answer(g, a, s),
        _ => Err(RegistryRejection::NotCredentialInception),
    }
}

// The first event of a credential under a registry in two parts, but for the registry's own backers. It stays in its bytes.
pub fn incept_read(g: &Management, s: &[u8]) -> Result<Issue, RegistryRejection>
    ensures { (l : List BasicPrefix) → issue_at (view_management g.now l) s.now result ≡ incept_decoded (view_management g.now l) (decode_of s.now) }
{
    let Some(a) = Attempt::decode(s) else {
        return Err(RegistryRejection::Malformed);
    };
    event_answer(g, &a, s)?;
    Ok(Issue {
        own: own_signatures(&a),
        said: a.event.said,
        credential: a.event.credential,
        registry: a.event.registry,
    })
}

// The first event of a credential: an issue.
pub fn incept(g: RegistryState, s: &[u8]) -> Result<CredentialState, RegistryRejection>
    ensures { view_outcome no_credential result ≡ incept_of g s.now }
{
    if !g.well_formed() {
        return Err(RegistryRejection::Malformed);
    }
    let r = incept_read(&management_of(g), s)?;
    own_of(r.own, s, &g.backers, g.toad)?;
    Ok(CredentialState {
        registry: Said::read(s, r.registry),
        credential: Said::read(s, r.credential),
        sn: Sn { hi: 0, lo: 0 },
        head: Said::read(s, r.said),
    })
}
