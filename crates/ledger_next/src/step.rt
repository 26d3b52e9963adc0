// What an attempt comes to, by the fold that is asked for (docs/RULES.md, "Ledger", "Next states").
ghost use Rattle.ledger_answers.specs.Checks.{if_read, Makes};
ghost use Rattle.ledger_stores.specs.Effects.{named_effect};

use ledger_answers::answers::{incept, issue, revoke, rotate};
use ledger_answers::{Change, Found};
use ledger_asked::{Asks, Named};
use registry_error::RegistryRejection;
use registry_state::RegistryState;
use registry_state_credential::CredentialState;

// The refusal, or the one change that is made, where the searches for the registry and the row that are named found this.
pub fn next(
    s: &[u8],
    named: Named,
    registry: Found<RegistryState>,
    row: Found<CredentialState>,
) -> Result<Change, RegistryRejection>
    ensures { Makes (if_read s.now (named_effect s.now named registry row)) registry row result }
{
    match named.asks {
        Asks::Inception => incept(s, registry),
        Asks::Rotation => rotate(s, registry),
        Asks::Issue => issue(s, registry, row),
        Asks::Revocation => revoke(s, registry, row),
    }
}
