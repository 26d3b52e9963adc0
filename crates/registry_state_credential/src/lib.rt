// The state of a credential: read, written, held to its limits.
#![tactic(auto)]

pub mod state;

use cesr::Said;
use cesr_sn::Sn;
use codec_cursor::Cursor;

#[repr(C)]
#[derive(Clone, Copy)]
pub struct CredentialState {
    pub registry: Said,
    pub credential: Said,
    pub sn: Sn,
    // The digest of the last event.
    pub head: Said,
}

// A state that stays in its bytes: where its digests stand, and its sn.
#[derive(Clone, Copy)]
pub struct CredentialAt {
    pub registry: usize,
    pub credential: usize,
    pub sn: Sn,
    pub head: usize,
    pub next: Cursor,
}
