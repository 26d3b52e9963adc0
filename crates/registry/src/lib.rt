// The rotations of a registry: from an attempt and the state before it to a refusal or to the next state (docs/RULES.md, "Orders").
#![tactic(auto)]

pub mod registry;
pub mod rotation;

use cesr_sn::Sn;
use events_tel::Listed;
use events_toad::Toad;

// What a rotation changes of the state: values, and places in the attempt's bytes.
#[derive(Clone, Copy)]
pub struct RotationRead {
    pub sn: Sn,
    pub latest: usize,
    pub toad: Toad,
    pub cuts: Listed,
    pub additions: Listed,
}
