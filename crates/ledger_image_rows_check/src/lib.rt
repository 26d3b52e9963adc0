// Judges the rows of an image by its bytes (docs/RULES.md, "Image", "Reading rules").
#![tactic(auto)]

pub mod rows;

pub use ledger_image_ids::Ids;
