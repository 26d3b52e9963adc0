// The look-up of a ledger that is lent, and the check of all its reading rules (docs/RULES.md, "Look-up", "Reading rules").
#![tactic(auto)]

pub mod lookup;
