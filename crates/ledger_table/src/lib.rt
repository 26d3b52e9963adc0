// A ledger as one block of memory (docs/RULES.md, "Ledger").
#![tactic(auto)]

pub mod table;

use registry_state::RegistryState;
use registry_state_credential::CredentialState;

// The registries are the first `registry_count`, the rows the first `row_count`. Whatever stands behind them is not of the ledger. It holds numbers alone, so that every pattern of bits in the block is a ledger.
#[repr(C)]
#[derive(Clone, Copy)]
pub struct Ledger {
    pub registries: [RegistryState; 16],
    pub registry_count: usize,
    pub rows: [CredentialState; 256],
    pub row_count: usize,
}
