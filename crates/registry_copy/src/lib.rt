// The next state of a registry, written from the bytes that it is made of (docs/RULES.md, "Next states").
#![tactic(auto)]

pub mod copy;

// A next state did not find room: how many bytes it has.
#[derive(Clone, Copy)]
pub struct TooShort {
    pub size: usize,
}
