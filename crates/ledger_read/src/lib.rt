// An image read into the slices that a ledger lends (docs/RULES.md, "Image").
#![tactic(auto)]

pub mod read;

pub use ledger_image_check::Malformed;

// How many registries and rows an image had, which are those that are held then. After a refusal the counts of what is held are those of before.
#[derive(Clone, Copy)]
pub struct ImageRead {
    pub registry_count: usize,
    pub row_count: usize,
}
