// The rotation of a registry whose state stays in its bytes (docs/RULES.md, "Next states").
#![tactic(auto)]

pub mod rotation;

pub use registry::RotationRead;
