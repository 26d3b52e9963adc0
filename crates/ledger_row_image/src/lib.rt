// The credential section of an image (docs/RULES.md, "Image"), written from the rows that a ledger lends and stored into them.
// Not one generic section with the registries: a row has 115 bytes, so that its place is computed, and a registry's bytes are counted one by one.
#![tactic(auto)]

pub mod row_image;
