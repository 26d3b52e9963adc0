// An iss or bis, and a rev or brv, under the registry whose state is handed in. That state's backers and the held credential state stay in their bytes. The next state's bytes go to the start of `next`.
ghost use Rattle.std.specs.Prelude.{◌≡◌};
ghost use Rattle.host_next.specs.ByteFolds.{called, call_of};
ghost use Rattle.host_credential.specs.CredentialByteFolds.{credential_incept, credential_ingest, Leaves};

use cesr_sn::Sn;
use codec_cursor::Cursor;
use host_next::credential_next::leave_credential;
use host_parts::part::is_whole;
use host_report::report::report_answer;
use registry_backing::backing::own_in;
use registry_credential_state::credential_state::ingest_read;
use registry_error::RegistryRejection;
use registry_head::HeadPlaces;
use registry_issue::credential_state::incept_read;
use registry_management::read_management;
use registry_state_credential::CredentialAt;
use registry_transition::transition::transition_in;

// What an iss or bis leaves, in its places in the attempt's bytes.
fn issued(registry: &[u8], attempt: &[u8]) -> Result<HeadPlaces, RegistryRejection>
    ensures { Leaves attempt.now attempt.now result (credential_incept registry.now attempt.now) }
{
    let g = read_management(Cursor::start(), registry);
    if !is_whole(g.next, registry) {
        return Err(RegistryRejection::Malformed);
    }
    let o = incept_read(&g.value, attempt)?;
    own_in(o.own, attempt, registry, g.backers, g.value.toad)?;
    Ok(HeadPlaces {
        first: o.registry,
        second: o.credential,
        sn: Sn { hi: 0, lo: 0 },
        last: o.said,
    })
}

// What a rev or brv leaves: registry and credential in the held state's bytes, the digest in the attempt's.
fn revoked(
    registry: &[u8],
    credential: &[u8],
    attempt: &[u8],
) -> Result<HeadPlaces, RegistryRejection>
    ensures { Leaves credential.now attempt.now result (credential_ingest registry.now credential.now attempt.now) }
{
    let g = read_management(Cursor::start(), registry);
    let w = CredentialAt::read(Cursor::start(), credential);
    if !(is_whole(g.next, registry) & is_whole(w.next, credential)) {
        return Err(RegistryRejection::Malformed);
    }
    let held = g.value.id.0.same_at(credential, w.registry);
    let o = ingest_read(held, &g.value, attempt)?;
    own_in(o.own, attempt, registry, g.backers, g.value.toad)?;
    transition_in(credential, w, attempt, o.credential, o.prior)?;
    Ok(HeadPlaces {
        first: w.registry,
        second: w.credential,
        sn: Sn { hi: 0, lo: 1 },
        last: o.said,
    })
}

// An iss or bis.
pub fn credential_incept(
    registry: &[u8],
    attempt: &[u8],
    next: &mut [u8],
    report: &mut [u8; 36],
) -> u8
    ensures { called result report.new next.new ≡ call_of (credential_incept registry.now attempt.now) next.old }
{
    match issued(registry, attempt) {
        Ok(head) => leave_credential(attempt, attempt, &head, next, report),
        Err(refusal) => report_answer(Err(refusal), report),
    }
}

// A rev or brv.
pub fn credential_ingest(
    registry: &[u8],
    credential: &[u8],
    attempt: &[u8],
    next: &mut [u8],
    report: &mut [u8; 36],
) -> u8
    ensures { called result report.new next.new ≡ call_of (credential_ingest registry.now credential.now attempt.now) next.old }
{
    match revoked(registry, credential, attempt) {
        Ok(head) => leave_credential(credential, attempt, &head, next, report),
        Err(refusal) => report_answer(Err(refusal), report),
    }
}
