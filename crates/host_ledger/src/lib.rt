// The keys of look-ups, and the reports of look-ups and of images (docs/RULES.md, "Host's calls").
#![tactic(auto)]

pub mod key;
pub mod report;
