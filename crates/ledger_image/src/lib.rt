// The image of a ledger (docs/RULES.md, "Image"): the counts of its sections in code; specs/ has the image, proofs/ its laws.
#![tactic(auto)]

pub mod image;

pub use ledger_step::Malformed;
