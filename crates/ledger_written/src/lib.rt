// What writing the image of a ledger answers, and what it leaves of the buffer (docs/RULES.md, "Image").
#![tactic(auto)]

pub mod answer;
pub mod error;

// Why no image is written: the ledger breaks a reading rule, or the buffer is too short.
#[derive(Clone, Copy, PartialEq, Eq)]
pub enum WriteError {
    Malformed = 1,
    ShortBuffer = 30,
}
