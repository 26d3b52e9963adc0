// 1 of bytes that are no attempt, before the ledger's other checks (docs/RULES.md, "Orders").
#![tactic(auto)]

pub mod reading;
