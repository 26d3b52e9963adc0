// Answers, and the order of checks (docs/RULES.md, "Orders").
#![tactic(auto)]

pub mod answer;
