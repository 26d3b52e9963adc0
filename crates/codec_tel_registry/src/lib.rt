// The events of a registry, vcp and vrt, read from bytes (docs/RULES.md, "Bytes").
#![tactic(auto)]

pub mod tel;

pub use codec::{Kind, Read, TelEvent};
