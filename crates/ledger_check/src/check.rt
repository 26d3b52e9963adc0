// All reading rules of a ledger that is lent (docs/RULES.md, "Reading rules").
ghost use Rattle.std.specs.Prelude.{◌≡◌};
ghost use Rattle.std.specs.List.{list_all, list_any};
ghost use Rattle.cesr.specs.Primitives.{eq_said};
ghost use Rattle.ledger_step.specs.Ledgers.{lent_ledger, sound};
ghost use Rattle.ledger_check.specs.RowsHeld.{rows_held};

use cesr::Said;
use ledger_registries_check::check::registries_sound;
use ledger_rows_check::check::rows_sound;
use ledger_step::slices::in_use;
use registry_state::RegistryState;
use registry_state_credential::CredentialState;

#[tactic(auto, unfolding(cesr::specs::Primitives::eq_matter))]
fn has_id(registries: &[RegistryState], id: Said) -> bool
    ensures { result ≡ list_any (λ g. eq_said g.id id) registries.now }
{
    registries.iter().any(|g| g.id == id)
}

fn all_held<'a>(registries: &'a [RegistryState], rows: &'a [CredentialState]) -> bool
    ensures { result ≡ list_all (λ w. list_any (λ g. eq_said g.id w.registry) registries.now) rows.now }
{
    rows.iter().all(|w| has_id(registries, w.registry))
}

// Whether the registry of each of the first `row_count` rows is among the first `registry_count` registries.
pub fn rows_held<'a>(
    registries: &'a [RegistryState],
    registry_count: usize,
    rows: &'a [CredentialState],
    row_count: usize,
) -> bool
    ensures { result ≡ rows_held registries.now registry_count rows.now row_count }
{
    all_held(in_use(registries, registry_count), in_use(rows, row_count))
}

// Whether a ledger keeps to every reading rule.
pub fn sound<'a>(
    registries: &'a [RegistryState],
    registry_count: usize,
    rows: &'a [CredentialState],
    row_count: usize,
) -> bool
    ensures { result ≡ sound (lent_ledger registries.now registry_count rows.now row_count) }
{
    registries_sound(registries, registry_count)
        & (rows_sound(rows, row_count) & rows_held(registries, registry_count, rows, row_count))
}
