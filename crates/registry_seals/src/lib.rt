// The anchoring event that is used, and its seals (docs/RULES.md, "Anchoring events").
#![tactic(auto)]

pub mod seals;
