// The printed program's input, cut in attempts, and what it prints of them (docs/RULES.md, "What the program prints"). The program
// itself only reads, calls these and the ledger, and writes.
#![tactic(auto)]

pub mod framing;

// How far the input is read: the attempts that it counts, those of them that are still to come, and whether it is broken.
#[derive(Clone, Copy)]
pub struct Run {
    pub count: usize,
    pub left: usize,
    pub broken: bool,
}
