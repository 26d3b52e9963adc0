// The standing of a credential, on values (docs/RULES.md, "Look-up").
#![tactic(auto)]

pub mod lookup;
pub mod number;

pub use ledger_step::Malformed;

// What a look-up answers of a credential, with its number.
#[derive(Clone, Copy, PartialEq, Eq)]
pub enum Standing {
    Issued = 1,
    Revoked = 2,
    Unknown = 3,
}
