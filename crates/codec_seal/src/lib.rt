// Seals, read from bytes or passed (docs/RULES.md, "Bytes").
#![tactic(auto)]

pub mod seal;
