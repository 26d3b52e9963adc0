// The folds of a credential over bytes, each with its report (docs/RULES.md, "Host's calls").
#![tactic(auto)]

pub mod credential_calls;
