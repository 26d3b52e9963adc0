// What an attempt comes to by what it names, and what it stores of a lent ledger (docs/RULES.md, "Ledger", "Next states").
#![tactic(auto)]

use registry_error::Answer;

// An answer, and how many registries and rows are held after it. The answer stands beside the counts and not around them: after a refusal both are told too.
#[derive(Clone, Copy)]
pub struct Applied {
    pub answer: Answer,
    pub registry_count: usize,
    pub row_count: usize,
}
