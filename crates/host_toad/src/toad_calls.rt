// Thresholds: `exact` reports no value, `ample` the toad.
ghost use Rattle.std.specs.Prelude.{◌≡◌};
ghost use Rattle.events_toad.specs.Toads.{exact_of, ample_of, toad_number};
ghost use Rattle.host_toad.specs.ThresholdReports.{threshold_answer, exact_report, ample_report};

use events_toad::{Toad, ToadError};
use host_report::report::report_with;
use host_values::{Values, small};
use registry_error::{Answer, RegistryRejection};

// A threshold that there is not is refused.
fn threshold(res: Result<Toad, ToadError>) -> Answer
    ensures { result ≡ threshold_answer res }
{
    match res {
        Ok(_) => Ok(()),
        Err(_) => Err(RegistryRejection::BackerThreshold),
    }
}

pub fn exact(toad: u32, backers: usize, report: &mut [u8; 36]) -> u8
    ensures { (result ≡ toad_number (exact_of toad backers)) × (report.new ≡ exact_report (exact_of toad backers)) }
{
    let res = Toad::exact(toad, backers);
    report_with(threshold(res), Values::Nothing, report)
}

pub fn ample(backers: usize, report: &mut [u8; 36]) -> u8
    ensures { (result ≡ toad_number (ample_of backers)) × (report.new ≡ ample_report (ample_of backers)) }
{
    let res = Toad::ample(backers);
    let toad = small(u64::from(res.map_or(0, Toad::value)));
    report_with(threshold(res), Values::One(toad), report)
}
