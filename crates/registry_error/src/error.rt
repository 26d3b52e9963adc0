// Why an attempt is turned down, and what its sender is to do (docs/RULES.md, "Refusals").
ghost use Rattle.std.specs.Prelude.{◌≡◌};
ghost use Rattle.registry_error.specs.Errors.{number_of, disposition_of};
ghost use Rattle.registry_error.specs.declared.RegistryRejection.TheVariants.{BackerSet};

use crate::{Broken, RegistryRejection};
use registry_disposition::{Disposition, EvidenceKind, out_of_order};

// A rule on lists of backers that does not hold refuses the attempt.
impl From<Broken> for RegistryRejection {
    ghost from_gives = { λ b refusal. refusal ≡ BackerSet b.rule b.at };

    fn from(b: Broken) -> RegistryRejection {
        RegistryRejection::BackerSet {
            rule: b.rule,
            at: b.at,
        }
    }
}

impl RegistryRejection {
    // Some cases have details, so `as u8` does not give it.
    pub fn number(self) -> u8
        ensures { result ≡ number_of self }
    {
        match self {
            RegistryRejection::Malformed => 1,
            RegistryRejection::MissingRegistry => 2,
            RegistryRejection::DuplicateInception => 3,
            RegistryRejection::AlreadyIssued => 4,
            RegistryRejection::MissingCredentialState => 5,
            RegistryRejection::NotRegistryInception => 6,
            RegistryRejection::NotManagementRotation => 7,
            RegistryRejection::NotCredentialInception => 8,
            RegistryRejection::NotCredentialTransition => 9,
            RegistryRejection::InconsistentRegistry => 10,
            RegistryRejection::NoBackersWithBackers => 11,
            RegistryRejection::SimpleEventOnBackerRegistry => 12,
            RegistryRejection::BackedEventOnBackerlessRegistry => 13,
            RegistryRejection::RotationOnBackerlessRegistry => 14,
            RegistryRejection::SequenceNumberOverflow => 15,
            RegistryRejection::OutOfOrder {
                expected: _,
                actual: _,
            } => 16,
            RegistryRejection::PriorDigestMismatch => 17,
            RegistryRejection::MissingIssuer => 18,
            RegistryRejection::InconsistentIssuer => 19,
            RegistryRejection::MissingAnchor => 20,
            RegistryRejection::InconsistentAnchor => 21,
            RegistryRejection::InconsistentManagement => 22,
            RegistryRejection::UnresolvedAnchor { sn: _ } => 23,
            RegistryRejection::BackerSet { rule: _, at: _ } => 24,
            RegistryRejection::TooManyBackers => 25,
            RegistryRejection::BackerThreshold => 26,
            RegistryRejection::MissingBackerReceipts {
                valid: _,
                required: _,
            } => 27,
            RegistryRejection::InconsistentCredential => 28,
            RegistryRejection::NoRoom => 29,
            RegistryRejection::ShortBuffer => 30,
        }
    }

    pub fn disposition(self) -> Disposition
        ensures { result ≡ disposition_of self }
    {
        match self {
            RegistryRejection::MissingRegistry => Disposition::Awaiting(
                EvidenceKind::RegistryState,
            ),
            RegistryRejection::DuplicateInception => Disposition::Contested,
            RegistryRejection::AlreadyIssued => Disposition::Contested,
            RegistryRejection::MissingCredentialState => Disposition::Awaiting(
                EvidenceKind::CredentialTelState,
            ),
            RegistryRejection::OutOfOrder { expected, actual } => out_of_order(expected, actual),
            RegistryRejection::MissingIssuer => Disposition::Awaiting(EvidenceKind::IssuerState),
            RegistryRejection::MissingAnchor => Disposition::Awaiting(EvidenceKind::KelAnchor),
            RegistryRejection::UnresolvedAnchor { sn } => Disposition::Awaiting(
                EvidenceKind::TelAnchor { sn },
            ),
            RegistryRejection::MissingBackerReceipts { valid, required } => Disposition::Awaiting(
                EvidenceKind::BackerReceipts { valid, required },
            ),
            _ => Disposition::Terminal,
        }
    }
}
