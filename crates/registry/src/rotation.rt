// The rules of a rotation, wherever the current backers stand (docs/RULES.md, "Orders").
ghost use Rattle.std.specs.Prelude.{◌≡◌};
ghost use Rattle.cesr.specs.Primitives.{said_at};
ghost use Rattle.events_tel.specs.TelEvents.{members_in, view_event};
ghost use Rattle.registry_backer.specs.Attempts.{view_attempt, decode_of, Anchored};
ghost use Rattle.registry_signatures.specs.SignatureSections.{signatures_in};
ghost use Rattle.registry_management.specs.Managements.{view_management};
ghost use Rattle.registry.specs.RegistryFolds.{vrt_backers, vrt_answer, ingest_event, ingest_decoded, rotation_at};

use crate::RotationRead;
use cesr::Said;
use events_member_set::member_set::Prefixes;
use events_tel::Kind;
use registry_authentication::issuer::authenticate_issuer;
use registry_backer::Attempt;
use registry_backing::backing::enough_receipts;
use registry_error::{Answer, RegistryRejection};
use registry_inception::registry::threshold_fits;
use registry_management::Management;
use registry_members::state::surviving;
use registry_rotation::{InBytes, check_current, check_deltas};
use registry_verification::sequence::next_sn;

// The last five checks of a vrt: its lists, and the members after it.
fn members_answer<C: Prefixes>(current: C, a: &Attempt, s: &[u8]) -> Answer
    ensures { result ≡ vrt_backers (C.list current) a.now.event.toad.0 (members_in s.now a.now.event.backers) (members_in s.now a.now.event.additions) (signatures_in s.now a.now.signatures) }
{
    let cuts = InBytes {
        bytes: s,
        list: a.event.backers,
    };
    let additions = InBytes {
        bytes: s,
        list: a.event.additions,
    };
    check_deltas(cuts, additions)?;
    check_current(current, cuts, additions)?;
    let count = surviving(current, cuts).saturating_add(additions.size());
    if 16 < count {
        return Err(RegistryRejection::TooManyBackers);
    }
    threshold_fits(a.event.toad, count)?;
    enough_receipts(s, a.signatures, count, a.event.toad)
}

// A vrt's checks behind its kind.
fn rotation_answer<C: Prefixes>(g: &Management, current: C, a: &Attempt, s: &[u8]) -> Answer
    requires { Anchored s.now a.now }
    ensures { result ≡ vrt_answer (view_management g.now (C.list current)) (said_at s.now a.now.event.said) (said_at s.now a.now.event.registry) (said_at s.now a.now.event.prior) a.now.event.sn a.now.event.toad.0 (members_in s.now a.now.event.backers) (members_in s.now a.now.event.additions) (view_attempt s.now a.now) }
{
    let registry = Said::read(s, a.event.registry);
    if registry != g.id {
        return Err(RegistryRejection::InconsistentRegistry);
    }
    if g.configs.no_backers() {
        return Err(RegistryRejection::RotationOnBackerlessRegistry);
    }
    next_sn(g.sn, a.event.sn)?;
    let prior = Said::read(s, a.event.prior);
    if prior != g.latest {
        return Err(RegistryRejection::PriorDigestMismatch);
    }
    authenticate_issuer(s, a, g.issuer, registry, a.event.sn)?;
    members_answer(current, a, s)
}

// An attempt's checks.
fn ingest_answer<C: Prefixes>(g: &Management, current: C, a: &Attempt, s: &[u8]) -> Answer
    requires { Anchored s.now a.now }
    ensures { result ≡ ingest_event (view_management g.now (C.list current)) (view_event s.now a.now.event) (view_attempt s.now a.now) }
{
    match a.event.kind {
        Kind::Vcp => Err(RegistryRejection::DuplicateInception),
        Kind::Vrt => rotation_answer(g, current, a, s),
        _ => Err(RegistryRejection::NotManagementRotation),
    }
}

// The next event of a registry with these current backers: a rotation, which stays in its bytes.
pub fn rotation<C: Prefixes>(
    g: &Management,
    current: C,
    s: &[u8],
) -> Result<RotationRead, RegistryRejection>
    ensures { rotation_at (view_management g.now (C.list current)) s.now result ≡ ingest_decoded (view_management g.now (C.list current)) (decode_of s.now) }
{
    let Some(a) = Attempt::decode(s) else {
        return Err(RegistryRejection::Malformed);
    };
    ingest_answer(g, current, &a, s)?;
    Ok(RotationRead {
        sn: a.event.sn,
        latest: a.event.said,
        toad: a.event.toad,
        cuts: a.event.backers,
        additions: a.event.additions,
    })
}
