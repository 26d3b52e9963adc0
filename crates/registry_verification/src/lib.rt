// Receipts, and the place of an event behind a state.
#![tactic(auto)]

pub mod sequence;
pub mod verification;

pub use registry_signatures::{Counted, Signature};
