// The functions over the credential rows of a ledger, which are lent as one slice (docs/RULES.md, "Forms").
#![tactic(auto)]

pub mod rows;
