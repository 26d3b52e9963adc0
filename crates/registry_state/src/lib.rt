// The state of a registry, as a value and as bytes (docs/RULES.md, "Bytes").
#![tactic(auto)]

pub mod state;

use cesr::{Matter, Said};
use cesr_sn::Sn;
use codec::Configs;
use events::Members;
use events_toad::Toad;

#[repr(C)]
#[derive(Clone, Copy)]
pub struct RegistryState {
    pub id: Said,
    // An identifier.
    pub issuer: Matter,
    pub sn: Sn,
    // The digest of the last event.
    pub latest: Said,
    pub toad: Toad,
    pub configs: Configs,
    pub backers: Members,
}
