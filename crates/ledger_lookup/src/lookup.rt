// The standing of a credential, by its key (docs/RULES.md, "Look-up").
ghost use Rattle.std.specs.Prelude.{◌≡◌, take, slice_get};
ghost use Rattle.ledger_rows.specs.Rows.{find_at};
ghost use Rattle.ledger_step.specs.Ledgers.{lent_ledger, look_up};
ghost use Rattle.ledger_standing.specs.Lookups.{view_looked_up, key_pair};

use cesr::Said;
use ledger_check::check::sound;
use ledger_rows::rows::{find_at, used_row};
use ledger_standing::lookup::standing;
use ledger_standing::{Malformed, Standing};
use registry_state::RegistryState;
use registry_state_credential::CredentialState;

// The row with that key, among those before the count.
fn find_row(
    rows: &[CredentialState],
    row_count: usize,
    registry: Said,
    credential: Said,
) -> Option<CredentialState>
    ensures { result ≡ slice_get (take row_count rows.now) (find_at rows.now row_count registry credential) }
{
    let at = find_at(rows, row_count, registry, credential);
    used_row(rows, row_count, at)
}

// The standing of a credential. A ledger that breaks a reading rule has none, nor has a key whose parts are no saids. The parts of the ledger are handed in one by one: a `Ledger` has arrays of one length, and a slice here has any, with a count that may be past its end.
pub fn look_up<'a>(
    registries: &'a [RegistryState],
    registry_count: usize,
    rows: &'a [CredentialState],
    row_count: usize,
    registry: Said,
    credential: Said,
) -> Result<Standing, Malformed>
    ensures { view_looked_up result ≡ look_up (lent_ledger registries.now registry_count rows.now row_count) (key_pair registry credential) }
{
    let sound = sound(registries, registry_count, rows, row_count);
    let row = find_row(rows, row_count, registry, credential);
    standing(sound, row, registry, credential)
}
