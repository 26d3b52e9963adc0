// The decoder, the folds over bytes, `status` and thresholds.
ghost use Rattle.std.specs.Prelude.{◌≡◌};
ghost use Rattle.events_toad.specs.Toads.{exact_of, ample_of, toad_number};
ghost use Rattle.registry_error.specs.Errors.{answer_number};
ghost use Rattle.registry_wire.specs.Attempts.{decode_of};
ghost use Rattle.registry_credential.specs.Status.{status_of, status_number};
ghost use Rattle.host_toad.specs.ThresholdReports.{exact_report, ample_report};
ghost use Rattle.host_status.specs.StatusReports.{status_report};
ghost use Rattle.host_report.specs.Reports.{report_with};
ghost use Rattle.host_decode.specs.DecodeReports.{decoded_answer, decoded_values};
ghost use Rattle.host_next.specs.ByteFolds.{called, call_of};
ghost use Rattle.host_registry.specs.RegistryByteFolds.{registry_incept, registry_ingest};
ghost use Rattle.host_credential.specs.CredentialByteFolds.{credential_incept, credential_ingest};

use host_credential::credential_calls::{credential_incept, credential_ingest};
use host_decode::decode_calls::decode;
use host_registry::registry_calls::{registry_incept, registry_ingest};
use host_status::status_calls::status;
use host_toad::toad_calls::{ample, exact};

// The fold of a vcp. The next state's bytes go to the start of `next`.
#[unsafe(no_mangle)]
pub extern "C" fn jamfell_registry_incept(
    attempt: &[u8],
    next: &mut [u8],
    report: &mut [u8; 36],
) -> u8
    ensures { called result report.new next.new ≡ call_of (registry_incept attempt.now) next.old }
{
    registry_incept(attempt, next, report)
}

// The fold of a vrt, of the registry state in `state`.
#[unsafe(no_mangle)]
pub extern "C" fn jamfell_registry_ingest(
    state: &[u8],
    attempt: &[u8],
    next: &mut [u8],
    report: &mut [u8; 36],
) -> u8
    ensures { called result report.new next.new ≡ call_of (registry_ingest state.now attempt.now) next.old }
{
    registry_ingest(state, attempt, next, report)
}

// The fold of an iss or bis, under the registry state in `registry`.
#[unsafe(no_mangle)]
pub extern "C" fn jamfell_credential_incept(
    registry: &[u8],
    attempt: &[u8],
    next: &mut [u8],
    report: &mut [u8; 36],
) -> u8
    ensures { called result report.new next.new ≡ call_of (credential_incept registry.now attempt.now) next.old }
{
    credential_incept(registry, attempt, next, report)
}

// The fold of a rev or brv, of the credential state in `credential`.
#[unsafe(no_mangle)]
pub extern "C" fn jamfell_credential_ingest(
    registry: &[u8],
    credential: &[u8],
    attempt: &[u8],
    next: &mut [u8],
    report: &mut [u8; 36],
) -> u8
    ensures { called result report.new next.new ≡ call_of (credential_ingest registry.now credential.now attempt.now) next.old }
{
    credential_ingest(registry, credential, attempt, next, report)
}

// Whether bytes are an attempt, and of which kind.
#[unsafe(no_mangle)]
pub extern "C" fn jamfell_decode(attempt: &[u8], report: &mut [u8; 36]) -> u8
    ensures { (result ≡ answer_number (decoded_answer (decode_of attempt.now))) × (report.new ≡ report_with (decoded_answer (decode_of attempt.now)) (decoded_values (decode_of attempt.now))) }
{
    decode(attempt, report)
}

#[unsafe(no_mangle)]
pub extern "C" fn jamfell_status(input: &[u8], report: &mut [u8; 36]) -> u8
    ensures { (result ≡ status_number (status_of input.now)) × (report.new ≡ status_report (status_of input.now)) }
{
    status(input, report)
}

// Whether the toad suits so many backers.
#[unsafe(no_mangle)]
pub extern "C" fn jamfell_exact(toad: u32, backers: usize, report: &mut [u8; 36]) -> u8
    ensures { (result ≡ toad_number (exact_of toad backers)) × (report.new ≡ exact_report (exact_of toad backers)) }
{
    exact(toad, backers, report)
}

// The toad that suffices of so many backers.
#[unsafe(no_mangle)]
pub extern "C" fn jamfell_ample(backers: usize, report: &mut [u8; 36]) -> u8
    ensures { (result ≡ toad_number (ample_of backers)) × (report.new ≡ ample_report (ample_of backers)) }
{
    ample(backers, report)
}
