// All reading rules of a ledger that is lent (docs/RULES.md, "Reading rules").
#![tactic(auto)]

pub mod check;
