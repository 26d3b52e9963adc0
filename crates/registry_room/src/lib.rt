// What the next state of a registry is made of, and the room that it takes (docs/RULES.md, "Next states").
#![tactic(auto)]

pub mod next;

use cesr_sn::Sn;
use events_tel::{Configs, Listed};
use events_toad::Toad;

// What a next state is made of: values, and places in two slices, the held bytes and the attempt's.
#[derive(Clone, Copy)]
pub struct NextState {
    // Places in the held bytes.
    pub id: usize,
    pub issuer: usize,
    pub sn: Sn,
    // The place of the digest of the last event, in the attempt's bytes.
    pub latest: usize,
    pub toad: Toad,
    pub configs: Configs,
    // A list in the held bytes.
    pub current: Listed,
    // Lists in the attempt's bytes.
    pub cuts: Listed,
    pub additions: Listed,
}
