// The two sections of an image, over registries and rows that are lent: what they are, and all that is done for them outside a loop (docs/RULES.md, "Image"). They stay two: a row has 115 bytes, so that its place is computed, and of registries the bytes are counted one by one.
#![tactic(auto)]

pub mod registries;
pub mod rows;
