// The functions over the registries of a ledger, which are lent as one slice (docs/RULES.md, "Forms").
#![tactic(auto)]

pub mod registries;
