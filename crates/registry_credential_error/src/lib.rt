// The refusals of a credential's status.
#![tactic(auto)]

pub mod credential_error;

// The refusals of a credential's status, with their numbers.
#[derive(Clone, Copy)]
pub enum CredentialError {
    MissingRegistry = 31,
    MissingCredentialState = 32,
    MissingIssuerState = 33,
    MissingRegistryReference = 34,
    RegistryMismatch = 35,
    IssuerMismatch = 36,
    IssuerStateMismatch = 37,
    CredentialStateMismatch = 38,
    Revoked = 39,
}
