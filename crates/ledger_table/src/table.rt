// A ledger: both arrays with their counts, as a host lends them or as a value.
ghost use Rattle.std.specs.Prelude.{◌≡◌, []};
ghost use Rattle.ledger_rows.specs.Rows.{find_at};
ghost use Rattle.ledger_registries.specs.Registries.{find_registry};
ghost use Rattle.ledger_image.specs.Ledgers.{sound};
ghost use Rattle.ledger_image.specs.Images.{ledger_of};
ghost use Rattle.ledger_table.specs.Tables.{view_ledger};

use crate::Ledger;
use cesr::Said;
use ledger_check::check::sound;
use ledger_registries::registries::find_registry;
use ledger_rows::rows::find_at;
use registry_state::RegistryState;
use registry_state_credential::CredentialState;

impl Ledger {
    // No registry, and no row.
    pub fn empty() -> Ledger
        ensures { view_ledger result ≡ ledger_of [] [] }
    {
        Ledger {
            registries: [RegistryState::none(); 16],
            registry_count: 0,
            rows: [CredentialState::none(); 256],
            row_count: 0,
        }
    }

    // Whether it keeps to every reading rule.
    #[tactic(auto, unfolding(crate::specs::Tables::view_ledger))]
    pub fn sound(&self) -> bool
        ensures { result ≡ sound (view_ledger self.now) }
    {
        sound(
            &self.registries,
            self.registry_count,
            &self.rows,
            self.row_count,
        )
    }

    // The place of the registry with that id. Where there is none a new one has its place there.
    pub fn registry_place(&self, id: Said) -> usize
        ensures { result ≡ find_registry self.now.registries self.now.registry_count id }
    {
        find_registry(&self.registries, self.registry_count, id)
    }

    // The place of the row with that key. Where there is none a new one has its place there.
    pub fn row_place(&self, registry: Said, credential: Said) -> usize
        ensures { result ≡ find_at self.now.rows self.now.row_count registry credential }
    {
        find_at(&self.rows, self.row_count, registry, credential)
    }
}
