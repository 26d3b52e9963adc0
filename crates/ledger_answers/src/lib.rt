// The ledger's checks around each fold, in their order, and the change that is made where they and the fold accept (docs/RULES.md, "Orders", "Next states").
#![tactic(auto)]

pub mod answers;

use registry_state::RegistryState;
use registry_state_credential::CredentialState;

// Where a search of a table ended, how many states the table holds, and the state that was searched for, where it was found: it stands at that place.
#[derive(Clone, Copy)]
pub struct Found<T> {
    pub at: usize,
    pub count: usize,
    pub state: Option<T>,
}

// The one change that an accepted attempt makes: a state, the place where it is stored, and how many states its table holds then.
#[derive(Clone, Copy)]
pub enum Change {
    Registry {
        at: usize,
        state: RegistryState,
        count: usize,
    },
    Row {
        at: usize,
        state: CredentialState,
        count: usize,
    },
}
