// Whether a credential is its issuer's and stands unrevoked under its registry (docs/RULES.md, "Status").
ghost use Rattle.std.specs.Prelude.{◌≡◌, eqb};
ghost use Rattle.cesr_sn.specs.Numbers.{value};
ghost use Rattle.registry_state.specs.States.{view_registry};
ghost use Rattle.registry_status.specs.Statuses.{view_status};
ghost use Rattle.registry_credential.specs.Status.{status_of, judged, binding, required, number_of, status_number};
ghost use Rattle.registry_credential.specs.declared.StatusError.TheVariants.{Credential};

use crate::{CredentialVerifier, StatusError, StatusOutcome};
use cesr::{Matter, Said};
use cesr_sn::Sn;
use registry_credential_error::CredentialError;
use registry_state::RegistryState;
use registry_state_credential::CredentialState;
use registry_status::{Reference, StatusInput};

// A check that fails turns the credential down for its refusal.
impl From<CredentialError> for StatusError {
    ghost from_gives = { λ refusal error. error ≡ Credential refusal };

    fn from(refusal: CredentialError) -> StatusError {
        StatusError::Credential(refusal)
    }
}

impl StatusError {
    pub fn number(self) -> u8
        ensures { result ≡ number_of self }
    {
        match self {
            StatusError::Malformed => 1,
            StatusError::Credential(e) => e.number(),
        }
    }
}

// The refusal's number, or 0 where the credential is accepted.
pub fn status_number(outcome: StatusOutcome) -> u8
    ensures { result ≡ status_number outcome }
{
    match outcome {
        Ok(()) => 0,
        Err(e) => e.number(),
    }
}

impl CredentialVerifier {
    // The states in the bytes are those that the caller has accepted; here they are only held against the credential.
    #[tactic(auto, unfolding(crate::specs::Status::status_of))]
    pub fn status(s: &[u8]) -> StatusOutcome
        ensures { result ≡ status_of s.now }
    {
        let Some(x) = StatusInput::decode(s) else {
            return Err(StatusError::Malformed);
        };
        judge(&x)
    }
}

// What has to be there comes before what has to agree.
fn judge(x: &StatusInput) -> StatusOutcome
    ensures { result ≡ judged (view_status x.now) }
{
    let registry = x.registry.as_ref().ok_or(CredentialError::MissingRegistry)?;
    let credential = x.credential.ok_or(CredentialError::MissingCredentialState)?;
    let prefix = x.prefix.ok_or(CredentialError::MissingIssuerState)?;
    let Reference::Named(named) = x.reference else {
        return Err(StatusError::Credential(CredentialError::MissingRegistryReference));
    };
    judge_binding(x, registry, credential, prefix, named)
}

// What is there has to be about this credential, and the credential unrevoked.
#[tactic(auto, unfolding(crate::specs::Status::binding, cesr::specs::Primitives::eq_matter))]
fn judge_binding(
    x: &StatusInput,
    registry: &RegistryState,
    credential: CredentialState,
    prefix: Matter,
    named: Said,
) -> StatusOutcome
    ensures { result ≡ binding (view_status x.now) (view_registry registry.now) credential prefix named }
{
    require(named == registry.id, CredentialError::RegistryMismatch)?;
    require(x.issuer == registry.issuer, CredentialError::IssuerMismatch)?;
    require(prefix == x.issuer, CredentialError::IssuerStateMismatch)?;
    let of_registry = credential.registry == registry.id;
    let of_credential = credential.credential == x.said;
    require(
        of_registry & of_credential,
        CredentialError::CredentialStateMismatch,
    )?;
    require(is_issued(credential), CredentialError::Revoked)?;
    Ok(())
}

// A credential is issued at sn 0; each later sn is a revocation's.
fn is_issued(w: CredentialState) -> bool
    ensures { result ≡ eqb (value w.sn) 0 }
{
    w.sn == Sn { hi: 0, lo: 0 }
}

// A check: the refusal, unless the test holds.
fn require(test: bool, refusal: CredentialError) -> Result<(), CredentialError>
    ensures { result ≡ required test refusal }
{
    if test { Ok(()) } else { Err(refusal) }
}
