// The fold of a credential's next event, its revocation (docs/RULES.md, "Orders", "Next states").
ghost use Rattle.std.specs.Prelude.{◌≡◌, List};
ghost use Rattle.cesr.specs.Primitives.{said_at, eq_said};
ghost use Rattle.cesr.specs.declared.BasicPrefix.{BasicPrefix};
ghost use Rattle.events_tel.specs.TelEvents.{view_event};
ghost use Rattle.registry_management.specs.Managements.{view_management};
ghost use Rattle.registry_backer.specs.Attempts.{Anchored, view_attempt, decode_of};
ghost use Rattle.registry_issue.specs.IssueFolds.{view_outcome};
ghost use Rattle.registry_credential_state.specs.CredentialFolds.{ingest_decoded, ingest_of};
ghost use Rattle.registry_credential_state.specs.CredentialParts.{rev_resolved, brv_resolved, event_resolved, revocation_at};

use crate::Revocation;
use cesr::Said;
use cesr_sn::Sn;
use events_tel::Kind;
use registry_authentication::issuer::{authenticate_issuer, message_anchored};
use registry_backer::Attempt;
use registry_backer::backer::{authenticate_backer, names_registry, own_signatures};
use registry_backing::backing::own_of;
use registry_error::{Answer, RegistryRejection};
use registry_management::{Management, management_of};
use registry_state::RegistryState;
use registry_state_credential::CredentialState;
use registry_transition::transition::transition;

// A rev's checks behind its kind, but for its place behind the held state.
fn rev_answer(g: &Management, a: &Attempt, s: &[u8]) -> Answer
    requires { Anchored s.now a.now }
    ensures { (l : List BasicPrefix) → result ≡ rev_resolved (view_management g.now l) (said_at s.now a.now.event.said) (said_at s.now a.now.event.credential) (said_at s.now a.now.event.registry) (view_attempt s.now a.now) }
{
    if !g.id.0.same_at(s, a.event.registry) {
        return Err(RegistryRejection::InconsistentRegistry);
    }
    if !g.configs.no_backers() {
        return Err(RegistryRejection::SimpleEventOnBackerRegistry);
    }
    let credential = Said::read(s, a.event.credential);
    authenticate_issuer(s, a, g.issuer, credential, Sn { hi: 0, lo: 1 })
}

// A brv's checks behind its kind, but for that and for the registry's own backers.
fn brv_answer(g: &Management, a: &Attempt, s: &[u8]) -> Answer
    requires { Anchored s.now a.now }
    ensures { (l : List BasicPrefix) → result ≡ brv_resolved (view_management g.now l) (said_at s.now a.now.event.said) (said_at s.now a.now.event.credential) a.now.event.seal (view_attempt s.now a.now) }
{
    if !names_registry(a.event.seal, g.id) {
        return Err(RegistryRejection::InconsistentRegistry);
    }
    if g.configs.no_backers() {
        return Err(RegistryRejection::BackedEventOnBackerlessRegistry);
    }
    let credential = Said::read(s, a.event.credential);
    message_anchored(s, a, g.issuer, credential, Sn { hi: 0, lo: 1 })?;
    authenticate_backer(s, a, g, a.event.seal)
}

// The checks of an attempt that was decoded.
fn event_answer(g: &Management, a: &Attempt, s: &[u8]) -> Answer
    requires { Anchored s.now a.now }
    ensures { (l : List BasicPrefix) → result ≡ event_resolved (view_management g.now l) (view_event s.now a.now.event) (view_attempt s.now a.now) }
{
    match a.event.kind {
        Kind::Rev => rev_answer(g, a, s),
        Kind::Brv => brv_answer(g, a, s),
        _ => Err(RegistryRejection::NotCredentialTransition),
    }
}

// The next event of a credential under a registry whose backers are its callers'. Of the held state it asks only whether it is of the registry. There are states of which that is true and ones of which it is not, so the contract says something of either answer. The event stays in its bytes.
pub fn ingest_read(held: bool, g: &Management, s: &[u8]) -> Result<Revocation, RegistryRejection>
    ensures { (l : List BasicPrefix) (w : CredentialState) → held ≡ eq_said w.registry g.now.id → revocation_at (view_management g.now l) w s.now result ≡ ingest_decoded (view_management g.now l) w (decode_of s.now) }
{
    let Some(a) = Attempt::decode(s) else {
        return Err(RegistryRejection::Malformed);
    };
    if !held {
        return Err(RegistryRejection::InconsistentRegistry);
    }
    event_answer(g, &a, s)?;
    Ok(Revocation {
        own: own_signatures(&a),
        credential: a.event.credential,
        prior: a.event.prior,
        said: a.event.said,
    })
}

// The next event of a credential: a revocation.
pub fn ingest(
    g: RegistryState,
    w: CredentialState,
    s: &[u8],
) -> Result<CredentialState, RegistryRejection>
    ensures { view_outcome w result ≡ ingest_of g w s.now }
{
    if !(g.well_formed() & w.well_formed()) {
        return Err(RegistryRejection::Malformed);
    }
    let r = ingest_read(w.registry == g.id, &management_of(g), s)?;
    own_of(r.own, s, &g.backers, g.toad)?;
    transition(w, Said::read(s, r.credential), Said::read(s, r.prior))?;
    Ok(CredentialState {
        registry: w.registry,
        credential: w.credential,
        sn: Sn { hi: 0, lo: 1 },
        head: Said::read(s, r.said),
    })
}
