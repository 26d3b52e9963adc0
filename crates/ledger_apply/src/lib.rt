// The ledger's call on registries and rows that are lent (docs/RULES.md, "Ledger").
#![tactic(auto)]

pub mod apply;
mod found;
