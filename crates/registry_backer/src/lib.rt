// The authority of a bis or brv (docs/RULES.md, "Evidence").
#![tactic(auto)]

pub mod backer;

pub use registry_wire::Attempt;
