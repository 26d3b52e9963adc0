// What an attempt makes of the registry and the row that it names, on values (docs/RULES.md, "Ledger", "Next states").
#![tactic(auto)]

pub mod step;
