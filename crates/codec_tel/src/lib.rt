// Events read from bytes: the kind byte and sections 1 to 6 of an attempt (docs/RULES.md, "Bytes").
#![tactic(auto)]

pub mod tel;
