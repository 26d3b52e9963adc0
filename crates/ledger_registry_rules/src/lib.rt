// One registry held to the reading rules (docs/RULES.md, "Reading rules").
#![tactic(auto)]

pub mod rules;
