// Cases of the folds of a registry.
ghost use Rattle.std.specs.Prelude.{◌≡◌};
ghost use Rattle.laws.specs.Words.{same_list};
ghost use Rattle.registry_state.specs.States.{Registry, view_registry, registry_bytes};
ghost use Rattle.registry_inception.specs.InceptionFolds.{view_outcome};
ghost use Rattle.folds_judge.specs.Judgement.{parts, registry_agrees, judge_incept, judge_rotate};

use crate::part::{read_registry, same_report, unread};
use crate::{Case, Finding};
use registry::registry::ingest;
use registry_error::RegistryRejection;
use registry_inception::registry::incept_with_evidence;
use registry_state::RegistryState;

// 657 bytes are a state with 8 config bytes and 16 backers.
fn same_registry(g: RegistryState, bytes: &[u8]) -> bool
    ensures { result ≡ same_list (registry_bytes (view_registry g)) bytes.now }
{
    let mut out = [0u8; 657];
    let n = g.size();
    g.write(&mut out, 0);
    &out[..n] == bytes
}

// The answer is the expected one, and the state behind it the next one. A refusal leaves none: the state that was handed in stays.
fn registry_agrees(outcome: Result<RegistryState, RegistryRejection>, case: &Case) -> Finding
    ensures { (g : Registry) → result ≡ registry_agrees case.now.expected.now case.now.next.now (registry_bytes g) (view_outcome g outcome) }
{
    match outcome {
        Ok(g) => {
            let told = same_report(Ok(()), case.expected);
            let agrees = told & same_registry(g, case.next);
            Finding { agrees, read: true }
        }
        Err(refusal) => {
            let agrees = same_report(Err(refusal), case.expected);
            Finding { agrees, read: true }
        }
    }
}

pub(crate) fn judge_incept(case: &Case) -> Finding
    ensures { result ≡ judge_incept (parts case.now) }
{
    registry_agrees(incept_with_evidence(case.input), case)
}

pub(crate) fn judge_rotate(case: &Case) -> Finding
    ensures { result ≡ judge_rotate (parts case.now) }
{
    match read_registry(case.registry) {
        Some(g) => registry_agrees(ingest(g, case.input), case),
        None => unread(case.expected),
    }
}
