// `status` over bytes. Its refusals have no details.
ghost use Rattle.std.specs.Prelude.{◌≡◌};
ghost use Rattle.registry_credential_error.specs.CredentialErrors.{error_number};
ghost use Rattle.registry_credential.specs.Status.{status_of, status_number};
ghost use Rattle.host_status.specs.StatusReports.{error_report, status_report};

use host_report::report::{report_answer, report_rejection, write_report};
use host_values::{Values, awaited};
use registry_credential::{CredentialVerifier, StatusError, StatusOutcome};
use registry_credential_error::CredentialError;
use registry_error::RegistryRejection;

fn report_error(e: CredentialError, report: &mut [u8; 36]) -> u8
    ensures { (result ≡ error_number e) × (report.new ≡ error_report e) }
{
    let d = e.disposition();
    write_report(e.number(), d.letter(), awaited(d), Values::Nothing, report)
}

fn report_status(outcome: StatusOutcome, report: &mut [u8; 36]) -> u8
    ensures { (result ≡ status_number outcome) × (report.new ≡ status_report outcome) }
{
    match outcome {
        Ok(()) => report_answer(Ok(()), report),
        Err(StatusError::Malformed) => report_rejection(RegistryRejection::Malformed, report),
        Err(StatusError::Credential(e)) => report_error(e, report),
    }
}

pub fn status(input: &[u8], report: &mut [u8; 36]) -> u8
    ensures { (result ≡ status_number (status_of input.now)) × (report.new ≡ status_report (status_of input.now)) }
{
    report_status(CredentialVerifier::status(input), report)
}
