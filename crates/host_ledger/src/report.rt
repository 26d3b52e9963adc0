// A look-up's report, and those of images. Each writer answers the number that it writes.
ghost use Rattle.std.specs.Prelude.{◌≡◌, ℕ, List};
ghost use Rattle.ledger_step.specs.Refusals.{refusal_of};
ghost use Rattle.ledger_standing.specs.Lookups.{view_looked_up};
ghost use Rattle.ledger_written.specs.Writes.{view_written};
ghost use Rattle.host_ledger.specs.LedgerCalls.{look_up_report, image_report, read_report};

use host_report::report::report_plain;
use host_values::{Values, small};
use ledger_standing::{Malformed, Standing};
use ledger_written::WriteError;

pub fn report_looked_up(answer: Result<Standing, Malformed>, report: &mut [u8; 36]) -> u8
    ensures { (result ≡ (view_looked_up answer).refusal) × (report.new ≡ look_up_report (view_looked_up answer)) }
{
    match answer {
        Ok(s) => report_plain(0, Values::One(small(s.number() as u64)), report),
        Err(_) => report_plain(1, Values::One(small(0)), report),
    }
}

// The report is the same whatever the buffer has.
pub fn report_written(answer: Result<usize, WriteError>, report: &mut [u8; 36]) -> u8
    ensures { (bytes : List ℕ) → (result ≡ (view_written answer bytes).number) × (report.new ≡ image_report (view_written answer bytes)) }
{
    match answer {
        Ok(size) => report_plain(0, Values::One(small(size as u64)), report),
        Err(e) => report_plain(e.number(), Values::One(small(0)), report),
    }
}

pub fn report_read(answer: Result<(), Malformed>, report: &mut [u8; 36]) -> u8
    ensures { (result ≡ refusal_of answer) × (report.new ≡ read_report (refusal_of answer)) }
{
    match answer {
        Ok(_) => report_plain(0, Values::Nothing, report),
        Err(_) => report_plain(1, Values::Nothing, report),
    }
}
