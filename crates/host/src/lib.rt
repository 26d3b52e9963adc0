// The calls that are exported to other languages (docs/RULES.md, "Host's calls").
#![tactic(auto)]

pub mod apply;
pub mod empty;
pub mod folds;
pub mod look;
pub mod read;
pub mod write;
