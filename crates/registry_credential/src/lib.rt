// The status of a credential.
#![tactic(auto)]

pub mod credential;

use registry_credential_error::CredentialError;

// Why a credential is turned down: its input comes as bytes, so they may be malformed.
#[derive(Clone, Copy)]
pub enum StatusError {
    Malformed,
    Credential(CredentialError),
}

// What `status` answers.
pub type StatusOutcome = Result<(), StatusError>;

// A pure verifier: no storage, no network and no clock.
#[derive(Clone, Copy)]
pub struct CredentialVerifier;
