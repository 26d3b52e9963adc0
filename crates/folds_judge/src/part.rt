// What a record has: the states that are handed in, and what is found of the case.
ghost use Rattle.std.specs.Prelude.{◌≡◌, true, option_map, IfSome};
ghost use Rattle.laws.specs.Words.{same_list};
ghost use Rattle.registry_state.specs.States.{view_registry, registry_bytes, well_registry};
ghost use Rattle.registry_state_credential.specs.CredentialStates.{credential_bytes, well_credential};
ghost use Rattle.host_report.specs.Reports.{answer_report};
ghost use Rattle.folds_judge.specs.Judgement.{whole, registry_in, credential_in, unread};

use crate::Finding;
use codec_cursor::{Cursor, Read};
use host_report::report::report_answer;
use registry_error::{Answer, RegistryRejection};
use registry_state::RegistryState;
use registry_state_credential::CredentialState;

// Whether a record's 36 bytes are the report of an answer.
pub(crate) fn same_report(answer: Answer, expected: &[u8]) -> bool
    ensures { result ≡ same_list (answer_report answer) expected.now }
{
    let mut report = [0u8; 36];
    report_answer(answer, &mut report);
    &report[..] == expected
}

// What was read, where it is all of the bytes.
fn whole<T: Copy>(r: Read<T>, s: &[u8]) -> Option<T>
    ensures { result ≡ whole s.now r }
{
    let all = r.next.ok & (r.next.at == s.len());
    all.then_some(r.value)
}

// A state that is read is well formed, and its bytes tell all of it.
pub(crate) fn read_registry(s: &[u8]) -> Option<RegistryState>
    ensures view { option_map view_registry result ≡ registry_in s.now }
    ensures well { IfSome result (λ g. well_registry g ≡ true) }
    ensures bytes { IfSome result (λ g. registry_bytes (view_registry g) ≡ s.now) }
{
    whole(RegistryState::read(Cursor::start(), s), s)
}

pub(crate) fn read_credential(s: &[u8]) -> Option<CredentialState>
    ensures view { result ≡ credential_in s.now }
    ensures well { IfSome result (λ w. well_credential w ≡ true) }
    ensures bytes { IfSome result (λ w. credential_bytes w ≡ s.now) }
{
    whole(CredentialState::read(Cursor::start(), s), s)
}

// A state that is no state can't be handed in as a value, so its reader's verdict is the answer: 1.
pub(crate) fn unread(expected: &[u8]) -> Finding
    ensures { result ≡ unread expected.now }
{
    let agrees = same_report(Err(RegistryRejection::Malformed), expected);
    Finding {
        agrees,
        read: false,
    }
}
