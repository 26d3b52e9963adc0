// A ledger that a host lends as one block, made empty (docs/RULES.md, "Host's calls").
#![tactic(auto)]

pub mod empty;
