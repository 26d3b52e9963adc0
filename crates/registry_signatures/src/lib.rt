// The signatures of an attempt, section 9 (docs/RULES.md, "Bytes").
#![tactic(auto)]

pub mod signatures;

// Elements in the attempt's bytes, one behind the other.
#[derive(Clone, Copy)]
pub struct Counted {
    pub from: usize,
    pub count: usize,
}

// A backer's index, and the caller's verdict on its signature: 0 failed, 1 good.
#[derive(Clone, Copy)]
pub struct Signature {
    pub index: u32,
    pub verdict: u8,
}
