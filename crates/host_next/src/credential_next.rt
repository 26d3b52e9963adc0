// The same of a credential state, which has 115 bytes. It is copied from where it stands: registry and credential from one slice, the digest of its last event from another.
ghost use Rattle.std.specs.Prelude.{◌≡◌};
ghost use Rattle.host_next.specs.ByteFolds.{credential_copied, called, call_of};

use host_report::report::report_sized;
use registry_answer::answer::accept_if;
use registry_error::RegistryRejection;
use registry_head::HeadPlaces;
use registry_head::head::copy_credential;

pub fn leave_credential(
    held: &[u8],
    s: &[u8],
    head: &HeadPlaces,
    next: &mut [u8],
    report: &mut [u8; 36],
) -> u8
    ensures { called result report.new next.new ≡ call_of (credential_copied held.now s.now head.now) next.old }
{
    let ok = copy_credential(held, s, head, next);
    let answer = accept_if(ok, RegistryRejection::ShortBuffer);
    report_sized(answer, 115, report)
}
