// The input of `status` (docs/RULES.md, "Bytes").
#![tactic(auto)]

pub mod status;

use cesr::{Matter, Said};
use registry_state::RegistryState;
use registry_state_credential::CredentialState;

// What a credential says of its registry: nothing, a digest that names it, or a block.
#[derive(Clone, Copy)]
pub enum Reference {
    Unnamed,
    Named(Said),
    Block,
}

// The input of `status`: a credential, and what is known about it.
#[derive(Clone, Copy)]
pub struct StatusInput {
    pub said: Said,
    // An identifier.
    pub issuer: Matter,
    pub reference: Reference,
    pub registry: Option<RegistryState>,
    pub credential: Option<CredentialState>,
    // The prefix of the issuer's state, an identifier.
    pub prefix: Option<Matter>,
}
