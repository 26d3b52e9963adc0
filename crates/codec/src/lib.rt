// The sections that layouts are made of (docs/RULES.md, "Bytes").
#![tactic(auto)]

pub mod section;

pub use events::{BasicPrefix, Matter, Said};
pub use events_tel::{Configs, Cursor, Identifier, Kind, Listed, Read, Seal, TelEvent};
