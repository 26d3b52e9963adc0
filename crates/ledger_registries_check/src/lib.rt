// The check of all registries that are lent (docs/RULES.md, "Reading rules").
#![tactic(auto)]

pub mod check;
