// The image's section of registries, over registries that are lent as one slice (docs/RULES.md, "Image").
#![tactic(auto)]

pub mod registries;
