// One row held to the reading rules, and the marks that save searches for its key (docs/RULES.md, "Reading rules").
#![tactic(auto)]

pub mod marks;
pub mod rules;
