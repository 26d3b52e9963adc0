// The reports of the host's calls (docs/RULES.md, "Host's calls").
#![tactic(auto)]

pub mod report;
