// The folds of a registry over bytes, each with its report (docs/RULES.md, "Host's calls").
#![tactic(auto)]

pub mod registry_calls;
