// Configuration traits, and the events of a registry and its credentials.
#![tactic(auto)]

pub mod config;
pub mod tel;

pub use codec_cursor::{Cursor, Read, Sn};
pub use events_seal::{Identifier, Seal};
pub use events_toad::Toad;

// What an identifier may do.
#[derive(Clone, Copy)]
pub enum ConfigTrait {
    // Establishment events alone.
    EstOnly = 1,
    DoNotDelegate,
    // No witnesses and no other backers.
    NoBackers,
    // Registrars for backers, instead of witnesses.
    RegistrarBackers,
    NoRegistrarBackers,
    // The delegate's prefix is the delegator's.
    DelegateIsDelegator,
}

// A list of at most 8 config bytes, as it was handed in. They are kept as bytes, since a host lends them as memory and every
// pattern of bits has to be a value.
#[repr(C)]
#[derive(Clone, Copy)]
pub struct Configs {
    pub codes: [u8; 8],
    pub count: usize,
}

// Nothing was stored: the list has 8 bytes.
#[derive(Clone, Copy)]
pub struct NoRoom;

#[derive(Clone, Copy)]
pub enum Kind {
    Vcp = 1,
    Vrt,
    Iss,
    Rev,
    Bis,
    Brv,
}

// A list of prefixes that stays in the bytes: how many there are, and where the first stands.
#[derive(Clone, Copy)]
pub struct Listed {
    pub count: usize,
    pub start: Cursor,
}

// An event of any kind, flat: a field that the kind has no use for is blank. Digests, prefixes and lists stay in the bytes, and the event says where each stands, since they would be copied with it at every call.
#[derive(Clone, Copy)]
pub struct TelEvent {
    pub kind: Kind,
    pub said: usize,
    // A vcp's issuer, an identifier.
    pub issuer: usize,
    pub registry: usize,
    pub credential: usize,
    pub prior: usize,
    // A vrt's own sequence number.
    pub sn: Sn,
    pub toad: Toad,
    pub configs: Configs,
    // A vcp's backers, or a vrt's cuts.
    pub backers: Listed,
    pub additions: Listed,
    // The seal that a bis or brv carries itself.
    pub seal: Seal,
}
