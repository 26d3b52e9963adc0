// The lines that the printed program writes (docs/RULES.md, "What the program prints").
#![tactic(auto)]

pub mod text;
