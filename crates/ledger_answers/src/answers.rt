// The four folds, each between the ledger's checks (docs/RULES.md, "Orders"). A fold is run only on states that are held. Its answer is 1 of bytes that are no attempt, so that the bytes are asked only where a check before it refuses.
ghost use Rattle.std.specs.Prelude.{◌≡◌, ◌≢◌, MatchResult, None, Some};
ghost use Rattle.registry_state_credential.specs.declared.CredentialState.{CredentialState};
ghost use Rattle.cesr.specs.declared.Said.{Said};
ghost use Rattle.ledger_reading.specs.Names.{decodes};
ghost use Rattle.ledger_reading.specs.Pairs.{Pair};
ghost use Rattle.ledger_reading.specs.Readings.{behind_reading};
ghost use Rattle.ledger_answers.specs.declared.Found.{Found};
ghost use Rattle.ledger_answers.specs.Checks.{if_read, inception_named, rotation_named, issue_named, revocation_named, Makes};

use crate::{Change, Found};
use ledger_reading::reading::behind_reading;
use registry::registry::ingest as ingest_registry;
use registry_credential_state::credential_state::ingest as ingest_credential;
use registry_error::{Answer, RegistryRejection};
use registry_inception::registry::incept_with_evidence;
use registry_issue::credential_state::incept as incept_credential;
use registry_state::RegistryState;
use registry_state_credential::CredentialState;

// A ledger has room for so many.
const REGISTRIES: usize = 16;

const ROWS: usize = 256;

// The state that was searched for, or the refusal where there is none.
fn held<T: Copy>(
    s: &[u8],
    state: Option<T>,
    missing: RegistryRejection,
) -> Result<T, RegistryRejection>
    ensures { MatchResult result (λ x. state ≡ Some x) (λ r. (state ≡ None) × (r ≡ behind_reading (decodes s.now) missing)) }
{
    match state {
        Some(x) => Ok(x),
        None => Err(behind_reading(s, missing)),
    }
}

// The refusal where a state was found.
fn absent<T: Copy>(s: &[u8], state: Option<T>, present: RegistryRejection) -> Answer
    ensures { MatchResult result (λ u. state ≡ None) (λ r. (state ≢ None) × (r ≡ behind_reading (decodes s.now) present)) }
{
    match state {
        Some(_) => Err(behind_reading(s, present)),
        None => Ok(()),
    }
}

// A vcp: a new registry behind the last.
pub fn incept(s: &[u8], registry: Found<RegistryState>) -> Result<Change, RegistryRejection>
    ensures { (row : Found CredentialState) → Makes (if_read s.now (inception_named s.now registry.state registry.count)) registry row result }
{
    absent(s, registry.state, RegistryRejection::DuplicateInception)?;
    let state = incept_with_evidence(s)?;
    let registries = registry.count;
    if registries >= REGISTRIES {
        return Err(RegistryRejection::NoRoom);
    }
    Ok(Change::Registry {
        at: registries,
        state,
        count: registries + 1,
    })
}

// A vrt: the registry's next state.
pub fn rotate(s: &[u8], registry: Found<RegistryState>) -> Result<Change, RegistryRejection>
    ensures { (row : Found CredentialState) (id : Said) → Makes (if_read s.now (rotation_named s.now id registry.state)) registry row result }
{
    let g = held(s, registry.state, RegistryRejection::MissingRegistry)?;
    let state = ingest_registry(g, s)?;
    Ok(Change::Registry {
        at: registry.at,
        state,
        count: registry.count,
    })
}

// An iss or bis: a new row behind the last.
pub fn issue(
    s: &[u8],
    registry: Found<RegistryState>,
    row: Found<CredentialState>,
) -> Result<Change, RegistryRejection>
    ensures { Makes (if_read s.now (issue_named s.now registry.state row.state row.count)) registry row result }
{
    let issuing = held(s, registry.state, RegistryRejection::MissingRegistry)?;
    absent(s, row.state, RegistryRejection::AlreadyIssued)?;
    let state = incept_credential(issuing, s)?;
    let rows = row.count;
    if rows >= ROWS {
        return Err(RegistryRejection::NoRoom);
    }
    Ok(Change::Row {
        at: rows,
        state,
        count: rows + 1,
    })
}

// A rev or brv: the row's next state.
pub fn revoke(
    s: &[u8],
    registry: Found<RegistryState>,
    row: Found<CredentialState>,
) -> Result<Change, RegistryRejection>
    ensures { (k : Pair) → Makes (if_read s.now (revocation_named s.now k registry.state row.state)) registry row result }
{
    let g = held(s, registry.state, RegistryRejection::MissingRegistry)?;
    let w = held(s, row.state, RegistryRejection::MissingCredentialState)?;
    let state = ingest_credential(g, w, s)?;
    Ok(Change::Row {
        at: row.at,
        state,
        count: row.count,
    })
}
