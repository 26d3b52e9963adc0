// The image of a ledger that is lent, written to a buffer (docs/RULES.md, "Image").
#![tactic(auto)]

pub mod write;

pub use ledger_written::WriteError;
