// What a fold over bytes leaves of its next state, and its report (docs/RULES.md, "Host's calls").
#![tactic(auto)]

pub mod credential_next;
pub mod registry_next;

pub use registry_head::HeadPlaces;
