// One attempt against a ledger that is lent (docs/RULES.md, "Ledger", "Orders", "Next states").
ghost use Rattle.std.specs.Prelude.{◌≡◌};
ghost use Rattle.ledger_rows.specs.Ledgers.{lent_ledger};
ghost use Rattle.ledger_rows.specs.Steps.{request_of, effect, step_of};
ghost use Rattle.ledger_stores.specs.Applies.{lent, view_lent, Stores, answer_to, lent_after};

use crate::found::{registry_found, row_found};
use ledger_answers::Change;
use ledger_asked::asked::named;
use ledger_check::check::sound;
use ledger_next::step::next;
use ledger_reading::reading::behind_reading;
use ledger_registries::registries::store_registry;
use ledger_rows::rows::store_row;
use ledger_stores::Applied;
use registry_error::RegistryRejection;
use registry_state::RegistryState;
use registry_state_credential::CredentialState;

// What the attempt comes to: 1 of a ledger that breaks a reading rule, then what it asks.
fn change(
    registries: &[RegistryState],
    registry_count: usize,
    rows: &[CredentialState],
    row_count: usize,
    attempt: &[u8],
) -> Result<Change, RegistryRejection>
    ensures answer { answer_to result ≡ (step_of (lent_ledger registries.now registry_count rows.now row_count) attempt.now).answer }
    ensures ledger { view_lent (lent_after result (lent registries.now registry_count rows.now row_count)) ≡ (step_of (lent_ledger registries.now registry_count rows.now row_count) attempt.now).ledger }
    ensures stored { Stores (effect (lent_ledger registries.now registry_count rows.now row_count) (request_of attempt.now)) (lent registries.now registry_count rows.now row_count) (lent_after result (lent registries.now registry_count rows.now row_count)) }
{
    if !sound(registries, registry_count, rows, row_count) {
        return Err(RegistryRejection::Malformed);
    }
    match named(attempt) {
        Ok(asked) => {
            let registry = registry_found(registries, registry_count, asked.registry);
            let row = row_found(rows, row_count, asked.registry, asked.credential);
            next(attempt, asked, registry, row)
        }
        Err(refusal) => Err(behind_reading(attempt, refusal)),
    }
}

// After a refusal nothing is stored; an accepted attempt stores one state. The parts of the ledger are handed in one by one: a `Ledger` has arrays of one length, and a slice here has any.
pub fn apply(
    registries: &mut [RegistryState],
    registry_count: usize,
    rows: &mut [CredentialState],
    row_count: usize,
    attempt: &[u8],
) -> Applied
    ensures answer { result.answer ≡ (step_of (lent_ledger registries.old registry_count rows.old row_count) attempt.now).answer }
    ensures ledger { lent_ledger registries.new result.registry_count rows.new result.row_count ≡ (step_of (lent_ledger registries.old registry_count rows.old row_count) attempt.now).ledger }
    ensures stored { Stores (effect (lent_ledger registries.old registry_count rows.old row_count) (request_of attempt.now)) (lent registries.old registry_count rows.old row_count) (lent registries.new result.registry_count rows.new result.row_count) }
{
    match change(registries, registry_count, rows, row_count, attempt) {
        Err(refusal) => Applied {
            answer: Err(refusal),
            registry_count,
            row_count,
        },
        Ok(Change::Registry { at, state, count }) => {
            store_registry(registries, at, state);
            Applied {
                answer: Ok(()),
                registry_count: count,
                row_count,
            }
        }
        Ok(Change::Row { at, state, count }) => {
            store_row(rows, at, state);
            Applied {
                answer: Ok(()),
                registry_count,
                row_count: count,
            }
        }
    }
}
