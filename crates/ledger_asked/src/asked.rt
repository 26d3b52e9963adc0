// What an attempt asks of the ledger (docs/RULES.md, "Ledger"). In an attempt's bytes the kind tells the places of the names, so nothing is decoded for them: that is the fold's to do.
ghost use Rattle.std.specs.Prelude.{◌≡◌, Ok};
ghost use Rattle.ledger_asked.specs.Names.{about, named_at, named_pair, pair_at, head_named, decodes};

use crate::{Asks, Named};
use cesr::{Matter, Said};
use cesr_number::number::read_u8;
use registry_error::RegistryRejection;
use registry_wire::Attempt;

fn about(asks: Asks, registry: Said, credential: Said) -> Named
    ensures { result ≡ about asks registry credential }
{
    Named {
        asks,
        registry,
        credential,
    }
}

// An iss, a rev or a bis.
fn named_at(asks: Asks, s: &[u8]) -> Named
    ensures { result ≡ named_at asks s.now }
{
    let credential = Said::read(s, 35);
    let registry = Said::read(s, 68);
    about(asks, registry, credential)
}

// A brv's registry is the said in its own seal. One that names no pair gets 10.
#[tactic(auto, unfolding(events_seal::specs::Identifiers::identifier_of))]
fn named_sealed(s: &[u8]) -> Result<Named, RegistryRejection>
    ensures { result ≡ named_pair (pair_at s.now) }
{
    let unpaired = Err(RegistryRejection::InconsistentRegistry);
    let seal = read_u8(s, 106);
    if seal != 4 {
        return unpaired;
    }
    let i = Matter::read(s, 107);
    if i.is_basic() {
        return unpaired;
    }
    let credential = Said::read(s, 35);
    Ok(about(Asks::Revocation, Said(i), credential))
}

// What stands at the places of the names. That the bytes are an attempt is not looked at: of others the answer means nothing.
#[tactic(auto, unfolding(crate::specs::Names::head_named))]
pub fn named(s: &[u8]) -> Result<Named, RegistryRejection>
    ensures { result ≡ head_named s.now }
{
    let none = Said(Matter::none());
    let kind = read_u8(s, 0);
    match kind {
        1 => Ok(about(Asks::Inception, Said::read(s, 2), none)),
        2 => Ok(about(Asks::Rotation, Said::read(s, 35), none)),
        3 => Ok(named_at(Asks::Issue, s)),
        4 => Ok(named_at(Asks::Revocation, s)),
        5 => Ok(named_at(Asks::Issue, s)),
        _ => named_sealed(s),
    }
}

// Whether the bytes are an attempt.
#[tactic(auto, using(crate::proofs::RequestLaws::decodes_as))]
pub fn decodes(s: &[u8]) -> bool
    ensures { result ≡ decodes s.now }
{
    Attempt::decode(s).is_some()
}
