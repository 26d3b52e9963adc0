// Whether bytes are an attempt, for hosts (docs/RULES.md, "Host's calls").
#![tactic(auto)]

pub mod decode_calls;
