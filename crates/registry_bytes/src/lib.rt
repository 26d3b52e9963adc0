// States, written to lent bytes (docs/RULES.md, "Bytes").
#![tactic(auto)]

pub mod writer;

use codec_laws::Configs;
use events_toad::Toad;
pub use registry_head::{HeadParts, HeadPlaces};

// What a registry state has between its head and its backers: its threshold, then its config bytes, whose count stands before them.
#[derive(Clone, Copy)]
pub struct Terms {
    pub toad: Toad,
    pub configs: Configs,
}
