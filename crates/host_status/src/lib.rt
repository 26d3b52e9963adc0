// `status`, with its report (docs/RULES.md, "Host's calls").
#![tactic(auto)]

pub mod status_calls;
