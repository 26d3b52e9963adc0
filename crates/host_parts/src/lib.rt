// What the folds over bytes share (docs/RULES.md, "Host's calls").
#![tactic(auto)]

pub mod part;
