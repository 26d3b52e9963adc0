// Identifiers and seals (docs/RULES.md, "Identifiers and seals").
#![tactic(auto)]

ghost use Rattle.std.specs.Prelude.{◌≡◌};
ghost use Rattle.events_seal.specs.Identifiers.{identifier_of, matter_of};
ghost use Rattle.events_seal.specs.Seals.{kind_of};

use cesr::{BasicPrefix, Matter, Said};
use cesr_sn::Sn;

#[derive(Clone, Copy)]
pub enum Identifier {
    Basic(BasicPrefix),
    SelfAddressing(Said),
}

impl Identifier {
    // The letter decides: B and D are basic. Any other primitive is taken for a digest; whoever reads one from bytes has held its letter to the layout.
    pub fn from_matter(m: Matter) -> Identifier
        ensures { result ≡ identifier_of m }
    {
        if m.is_basic() {
            return Identifier::Basic(BasicPrefix(m));
        }
        Identifier::SelfAddressing(Said(m))
    }

    pub fn matter(self) -> Matter
        ensures { result ≡ matter_of self }
    {
        match self {
            Identifier::Basic(p) => p.0,
            Identifier::SelfAddressing(d) => d.0,
        }
    }
}

// Of an event seal the identifier, the sequence number and the digest are kept; of the other seven no rule reads more than the kind.
#[derive(Clone, Copy)]
pub enum Seal {
    Digest,
    Root,
    Source,
    Event { i: Identifier, s: Sn, d: Said },
    Last,
    Back,
    Kind,
    Opaque,
}

impl Seal {
    // The byte that stands for its kind. A variant with fields has no discriminant, so each is written out.
    pub fn kind(self) -> u8
        ensures { result ≡ kind_of self }
    {
        match self {
            Seal::Digest => 1,
            Seal::Root => 2,
            Seal::Source => 3,
            Seal::Event { i: _, s: _, d: _ } => 4,
            Seal::Last => 5,
            Seal::Back => 6,
            Seal::Kind => 7,
            Seal::Opaque => 8,
        }
    }
}
