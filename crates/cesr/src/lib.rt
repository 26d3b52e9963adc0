// The primitives of CESR that attempts and states are made of: digests and prefixes, read from bytes and written to bytes.
#![tactic(auto)]

pub mod primitive;

// The material of a primitive, whatever its role: the code letter, and the 32 bytes as four big-endian words. The letter has a word too: with a gap behind a single byte the compiler makes slow copies, and a lent state would have bits that mean nothing.
#[repr(C)]
#[derive(Clone, Copy, PartialEq, Eq)]
pub struct Matter {
    pub code: u64,
    pub w0: u64,
    pub w1: u64,
    pub w2: u64,
    pub w3: u64,
}

// A digest that names its own content.
#[repr(C)]
#[derive(Clone, Copy, PartialEq, Eq)]
pub struct Said(pub Matter);

// A prefix that is a public key.
#[repr(C)]
#[derive(Clone, Copy, PartialEq, Eq)]
pub struct BasicPrefix(pub Matter);
