// The sequence number of events: read from bytes, written to bytes, compared, counted on.
#![tactic(auto)]

pub mod number;

// A sequence number of 128 bits. The upper word stands first, so that `<` is the numbers' order.
#[repr(C)]
#[derive(Clone, Copy, PartialEq, Eq, PartialOrd, Ord)]
pub struct Sn {
    pub hi: u64,
    pub lo: u64,
}
