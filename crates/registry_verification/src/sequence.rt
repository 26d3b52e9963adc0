// The place of an event behind a state (docs/RULES.md, "Refusals").
ghost use Rattle.std.specs.Prelude.{◌≡◌};
ghost use Rattle.registry_verification.specs.Sequence.{next_sn};

use cesr_sn::Sn;
use registry_answer::answer::accept_if;
use registry_error::{Answer, RegistryRejection};

// A state's next sn is one more.
pub fn next_sn(held: Sn, sn: Sn) -> Answer
    ensures { result ≡ next_sn held sn }
{
    if held.is_last() {
        return Err(RegistryRejection::SequenceNumberOverflow);
    }
    let expected = held.next();
    accept_if(
        sn == expected,
        RegistryRejection::OutOfOrder {
            expected,
            actual: sn,
        },
    )
}
