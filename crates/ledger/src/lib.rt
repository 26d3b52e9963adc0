// A ledger held as a value (docs/RULES.md, "Ledger"): its calls, for a caller that lends no states of its own.
#![tactic(auto)]

pub mod ledger;

pub use ledger_standing::Malformed;
