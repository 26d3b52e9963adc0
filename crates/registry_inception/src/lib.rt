// The first event of a registry: from an attempt to a refusal or to the first state (docs/RULES.md, "Orders").
#![tactic(auto)]

pub mod registry;

use events_tel::{Configs, Listed};
use events_toad::Toad;

// What the state that an inception leaves is made of: values, and places in the attempt's bytes.
#[derive(Clone, Copy)]
pub struct Inception {
    pub said: usize,
    pub issuer: usize,
    pub toad: Toad,
    pub configs: Configs,
    pub backers: Listed,
}
