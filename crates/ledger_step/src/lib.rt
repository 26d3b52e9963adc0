// The ledger, its step and its look-up as definitions, and the claim about two orders (docs/RULES.md, "Ledger", "Two orders"): specs/ and proofs/. The only code
// is what the functions over lent slices share.
#![tactic(auto)]

pub mod slices;

// Why a look-up or an image is turned down, where there is one reason only: the refusal 1.
#[derive(Clone, Copy, PartialEq, Eq)]
pub struct Malformed;
