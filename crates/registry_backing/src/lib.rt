// The rules on the backers and the toad of an authority, and its receipts (docs/RULES.md, "Receipts").
#![tactic(auto)]

pub mod backing;
