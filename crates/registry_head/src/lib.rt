// The bytes of a credential state, which are also what a registry state begins with (docs/RULES.md, "Bytes").
#![tactic(auto)]

pub mod head;

use cesr::Matter;
use cesr_sn::Sn;

// Of a credential state: its registry, the credential, its sn, the digest of its last event. Of a registry state: its id, its issuer, its sn, the digest of its last event.
#[derive(Clone, Copy)]
pub struct HeadParts {
    pub first: Matter,
    pub second: Matter,
    pub sn: Sn,
    pub last: Matter,
}

// The same by the places where its primitives stand: the first two in the held bytes, the last in the attempt's.
#[derive(Clone, Copy)]
pub struct HeadPlaces {
    pub first: usize,
    pub second: usize,
    pub sn: Sn,
    pub last: usize,
}
