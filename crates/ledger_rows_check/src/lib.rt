// The check of all rows that are lent (docs/RULES.md, "Reading rules").
#![tactic(auto)]

pub mod check;
