// The last checks of a revocation: its credential, and its place behind the held state (docs/RULES.md, "Orders").
#![tactic(auto)]

pub mod transition;
