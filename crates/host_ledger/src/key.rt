// The key of a look-up, in its bytes (docs/RULES.md, "Host's calls", "Look-up").
ghost use Rattle.std.specs.Prelude.{◌≡◌};
ghost use Rattle.host_ledger.specs.LedgerCalls.{said_in, key_in, view_key};

use cesr::{Matter, Said};

// What a look-up asks for.
#[derive(Clone, Copy)]
pub struct Key {
    pub registry: Said,
    pub credential: Said,
}

// A said has 33 bytes. Bytes of another length are no said, which the look-up refuses.
fn said_in(bytes: &[u8]) -> Said
    ensures { result ≡ said_in bytes.now }
{
    if bytes.len() == 33 {
        return Said(Matter::read(bytes, 0));
    }
    Said(Matter::none())
}

pub fn key_in(registry: &[u8], credential: &[u8]) -> Key
    ensures { view_key result ≡ key_in registry.now credential.now }
{
    Key {
        registry: said_in(registry),
        credential: said_in(credential),
    }
}
