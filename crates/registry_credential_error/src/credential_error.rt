// Why a credential has no status (docs/RULES.md, "Refusals").
ghost use Rattle.std.specs.Prelude.{◌≡◌};
ghost use Rattle.registry_credential_error.specs.CredentialErrors.{error_number, error_disposition};

use crate::CredentialError;
use registry_disposition::{Disposition, EvidenceKind};

impl CredentialError {
    pub fn number(self) -> u8
        ensures { result ≡ error_number self }
    {
        self as u8
    }

    pub fn disposition(self) -> Disposition
        ensures { result ≡ error_disposition self }
    {
        match self {
            CredentialError::MissingRegistry => Disposition::Awaiting(EvidenceKind::RegistryState),
            CredentialError::MissingCredentialState => {
                Disposition::Awaiting(EvidenceKind::CredentialTelState)
            }
            CredentialError::MissingIssuerState => Disposition::Awaiting(EvidenceKind::IssuerState),
            CredentialError::MissingRegistryReference => Disposition::Terminal,
            CredentialError::RegistryMismatch => Disposition::Terminal,
            CredentialError::IssuerMismatch => Disposition::Terminal,
            CredentialError::IssuerStateMismatch => Disposition::Terminal,
            CredentialError::CredentialStateMismatch => Disposition::Terminal,
            CredentialError::Revoked => Disposition::Terminal,
        }
    }
}
