// The members after a rotation (docs/RULES.md, "Lists of backers").
#![tactic(auto)]

pub mod state;
