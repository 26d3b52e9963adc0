// Thresholds, each with its report (docs/RULES.md, "Host's calls").
#![tactic(auto)]

pub mod toad_calls;
