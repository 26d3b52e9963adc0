// The folds on states that are lent (docs/RULES.md, "Forms").
#![tactic(auto)]

pub mod credential_state;
