// Why an attempt is turned down.
#![tactic(auto)]

pub mod error;

pub use events::Broken;
use events::Rule;
use registry_disposition::Sn;

// Each refusal of an attempt, with its details.
#[derive(Clone, Copy)]
pub enum RegistryRejection {
    Malformed,
    MissingRegistry,
    DuplicateInception,
    AlreadyIssued,
    MissingCredentialState,
    NotRegistryInception,
    NotManagementRotation,
    NotCredentialInception,
    NotCredentialTransition,
    InconsistentRegistry,
    NoBackersWithBackers,
    SimpleEventOnBackerRegistry,
    BackedEventOnBackerlessRegistry,
    RotationOnBackerlessRegistry,
    SequenceNumberOverflow,
    OutOfOrder { expected: Sn, actual: Sn },
    PriorDigestMismatch,
    MissingIssuer,
    InconsistentIssuer,
    MissingAnchor,
    InconsistentAnchor,
    InconsistentManagement,
    UnresolvedAnchor { sn: Sn },
    BackerSet { rule: Rule, at: usize },
    TooManyBackers,
    BackerThreshold,
    MissingBackerReceipts { valid: usize, required: u32 },
    InconsistentCredential,
    NoRoom,
    ShortBuffer,
}

// What an attempt is given: it is accepted, or it is refused for a reason.
pub type Answer = Result<(), RegistryRejection>;
