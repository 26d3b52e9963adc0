// A fold that accepts leaves the next state of a registry, which is made from bytes, at the start of a lent buffer, where its bytes find room.
ghost use Rattle.std.specs.Prelude.{◌≡◌};
ghost use Rattle.host_next.specs.ByteFolds.{next_folded, called, call_of};

use host_report::report::report_sized;
use registry_answer::answer::accept_if;
use registry_copy::copy::write_next;
use registry_error::RegistryRejection;
use registry_room::NextState;

pub fn leave_next(held: &[u8], s: &[u8], p: NextState, next: &mut [u8], report: &mut [u8; 36]) -> u8
    ensures { called result report.new next.new ≡ call_of (next_folded held.now s.now p) next.old }
{
    let written = write_next(held, s, p, next);
    let answer = accept_if(written.is_ok(), RegistryRejection::ShortBuffer);
    match written {
        Ok(size) => report_sized(answer, size, report),
        Err(short) => report_sized(answer, short.size, report),
    }
}
