// A state that has to be all of its bytes, and room for the next one.
ghost use Rattle.std.specs.Prelude.{◌≡◌, ◌&&◌, eqb, leb, length};
ghost use Rattle.registry_answer.specs.Answers.{accept_if, or_else};
ghost use Rattle.registry_error.specs.declared.RegistryRejection.TheVariants.{Malformed, ShortBuffer};
ghost use Rattle.host_report.specs.Reports.{rejection_report};

use codec_cursor::Cursor;
use host_report::report::report_answer;
use registry_answer::answer::{accept_if, or_else};
use registry_error::{Answer, RegistryRejection};

// Whether a reader has come to the end of the bytes.
pub fn is_whole(c: Cursor, s: &[u8]) -> bool
    ensures { result ≡ (c.ok && eqb c.at (length s.now)) }
{
    c.ok & (c.at == s.len())
}

// The answer to bytes that are no state.
pub fn malformed(report: &mut [u8; 36]) -> u8
    ensures { (result ≡ 1) × (report.new ≡ rejection_report Malformed) }
{
    report_answer(Err(RegistryRejection::Malformed), report)
}

// A fold's answer, and behind it the check that its state finds room.
pub fn fitted(answer: Answer, size: usize, room: usize) -> Answer
    ensures { result ≡ or_else answer (accept_if (leb size room) ShortBuffer) }
{
    let fits = accept_if(size <= room, RegistryRejection::ShortBuffer);
    or_else(answer, fits)
}
