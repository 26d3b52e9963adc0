// What is found of a registry or a row that is named: only those before the count are looked at.
ghost use Rattle.std.specs.Prelude.{◌≡◌};
ghost use Rattle.ledger_stores.specs.Effects.{registry_found, row_found};

use cesr::Said;
use ledger_answers::Found;
use ledger_registries::registries::find_registry;
use ledger_rows::rows::{find_at, used_row};
use ledger_step::slices::used_at;
use registry_state::RegistryState;
use registry_state_credential::CredentialState;

pub fn registry_found(registries: &[RegistryState], count: usize, id: Said) -> Found<RegistryState>
    ensures { result ≡ registry_found registries.now count id }
{
    let at = find_registry(registries, count, id);
    let state = used_at(registries, count, at);
    Found { at, count, state }
}

pub fn row_found(
    rows: &[CredentialState],
    count: usize,
    registry: Said,
    credential: Said,
) -> Found<CredentialState>
    ensures { result ≡ row_found rows.now count registry credential }
{
    let at = find_at(rows, count, registry, credential);
    let state = used_row(rows, count, at);
    Found { at, count, state }
}
