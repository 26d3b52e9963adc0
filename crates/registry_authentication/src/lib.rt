// Who an attempt's event comes from: issuers and anchoring events (docs/RULES.md, "Evidence", "Anchoring events").
#![tactic(auto)]

pub mod issuer;

pub use registry_wire::{Attempt, EvidenceAt, RegistryState};
