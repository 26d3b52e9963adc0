// Primitives, stored in lent bytes (docs/RULES.md, "Bytes").
#![tactic(auto)]

pub mod matter;
