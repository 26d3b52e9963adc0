// What an attempt asks of the ledger (docs/RULES.md, "Ledger").
#![tactic(auto)]

pub mod asked;

use cesr::Said;

// The fold that is asked for: that of a vcp, of a vrt, of an iss or a bis, of a rev or a brv.
#[derive(Clone, Copy, PartialEq, Eq)]
pub enum Asks {
    Inception,
    Rotation,
    Issue,
    Revocation,
}

// The fold, and the registry and the credential that it is about. Where it is about no credential a blank said stands there and no Option, since the row is searched for alike in every case.
#[derive(Clone, Copy)]
pub struct Named {
    pub asks: Asks,
    pub registry: Said,
    pub credential: Said,
}
