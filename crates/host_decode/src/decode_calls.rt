// An attempt is decoded and nothing else is done with it: a host may ask before it sends or keeps it.
ghost use Rattle.std.specs.Prelude.{◌≡◌};
ghost use Rattle.registry_error.specs.Errors.{answer_number};
ghost use Rattle.registry_wire.specs.Attempts.{decode_of};
ghost use Rattle.host_report.specs.Reports.{report_with};
ghost use Rattle.host_decode.specs.DecodeReports.{decoded_answer, decoded_values};

use host_parts::part::malformed;
use host_report::report::report_with;
use host_values::{Values, small};
use registry_error::Answer;
use registry_wire::Attempt;

// The report of an attempt has the number of its kind.
pub fn decode(attempt: &[u8], report: &mut [u8; 36]) -> u8
    ensures { (result ≡ answer_number (decoded_answer (decode_of attempt.now))) × (report.new ≡ report_with (decoded_answer (decode_of attempt.now)) (decoded_values (decode_of attempt.now))) }
{
    match Attempt::decode(attempt) {
        Some(a) => {
            let number = small(a.event.kind.number() as u64);
            report_with(Ok(()), Values::One(number), report)
        }
        None => malformed(report),
    }
}
