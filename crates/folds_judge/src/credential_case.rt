// Cases of the folds of a credential.
ghost use Rattle.std.specs.Prelude.{◌≡◌};
ghost use Rattle.laws.specs.Words.{same_list};
ghost use Rattle.registry_state_credential.specs.CredentialStates.{credential_bytes};
ghost use Rattle.registry_state_credential.specs.declared.CredentialState.{CredentialState};
ghost use Rattle.registry_issue.specs.IssueFolds.{view_outcome};
ghost use Rattle.folds_judge.specs.Judgement.{parts, credential_agrees, judge_issue, judge_revoke};

use crate::part::{read_credential, read_registry, same_report, unread};
use crate::{Case, Finding};
use registry_credential_state::credential_state::ingest;
use registry_error::RegistryRejection;
use registry_issue::credential_state::incept;
use registry_state_credential::CredentialState;

fn same_credential(w: CredentialState, bytes: &[u8]) -> bool
    ensures { result ≡ same_list (credential_bytes w) bytes.now }
{
    let mut out = [0u8; 115];
    w.write(&mut out, 0);
    &out[..] == bytes
}

// The answer is the expected one, and the state behind it the next one. A refusal leaves none: the state that was handed in stays.
fn credential_agrees(outcome: Result<CredentialState, RegistryRejection>, case: &Case) -> Finding
    ensures { (w : CredentialState) → result ≡ credential_agrees case.now.expected.now case.now.next.now (credential_bytes w) (view_outcome w outcome) }
{
    match outcome {
        Ok(w) => {
            let told = same_report(Ok(()), case.expected);
            let agrees = told & same_credential(w, case.next);
            Finding { agrees, read: true }
        }
        Err(refusal) => {
            let agrees = same_report(Err(refusal), case.expected);
            Finding { agrees, read: true }
        }
    }
}

pub(crate) fn judge_issue(case: &Case) -> Finding
    ensures { result ≡ judge_issue (parts case.now) }
{
    match read_registry(case.registry) {
        Some(g) => credential_agrees(incept(g, case.input), case),
        None => unread(case.expected),
    }
}

pub(crate) fn judge_revoke(case: &Case) -> Finding
    ensures { result ≡ judge_revoke (parts case.now) }
{
    let Some(g) = read_registry(case.registry) else {
        return unread(case.expected);
    };
    let Some(w) = read_credential(case.credential) else {
        return unread(case.expected);
    };
    credential_agrees(ingest(g, w, case.input), case)
}
