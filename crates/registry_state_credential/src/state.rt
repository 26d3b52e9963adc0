// The state of a credential. It holds numbers alone, since a host lends it as memory and every pattern of bits has to be a value.
ghost use Rattle.std.specs.Prelude.{◌≡◌};
ghost use Rattle.laws.specs.Room.{room, put};
ghost use Rattle.registry_state_credential.specs.CredentialStates.{credential_bytes, read_credential, view_credential_at, no_credential, well_credential};

use crate::{CredentialAt, CredentialState};
use cesr::{Matter, Said};
use cesr_sn::Sn;
use codec_cursor::{Cursor, Read};
use registry_head::HeadParts;
use registry_head::head::write_credential;

impl CredentialState {
    // What stands where there is no credential.
    pub fn none() -> CredentialState
        ensures { result ≡ no_credential }
    {
        let none = Matter::none();
        CredentialState {
            registry: Said(none),
            credential: Said(none),
            sn: Sn { hi: 0, lo: 0 },
            head: Said(none),
        }
    }

    // Whether its letters are those of digests.
    #[tactic(auto, unfolding(crate::specs::CredentialStates::well_credential))]
    pub fn well_formed(self) -> bool
        ensures { result ≡ well_credential self }
    {
        self.registry.0.is_said() & (self.credential.0.is_said() & self.head.0.is_said())
    }

    // Stores all its 115 bytes or none, and answers which.
    pub fn write(self, out: &mut [u8], at: usize) -> bool
        ensures { (result ≡ room out.old at 115) × (out.new ≡ put out.old at (credential_bytes self)) }
    {
        let head = HeadParts {
            first: self.registry.0,
            second: self.credential.0,
            sn: self.sn,
            last: self.head.0,
        };
        write_credential(out, at, &head)
    }

    #[tactic(auto, unfolding(crate::specs::CredentialStates::read_credential))]
    pub fn read(c: Cursor, s: &[u8]) -> Read<CredentialState>
        ensures { result ≡ read_credential s.now c }
    {
        let registry = c.said(s);
        let credential = registry.next.said(s);
        let sn = credential.next.sn(s);
        let head = sn.next.said(s);
        let value = CredentialState {
            registry: registry.value,
            credential: credential.value,
            sn: sn.value,
            head: head.value,
        };
        Read {
            value,
            next: head.next,
        }
    }
}

impl CredentialAt {
    // The same, passed over: only the letters of its digests are looked at.
    #[tactic(auto, unfolding(crate::specs::CredentialStates::read_credential, codec_cursor::specs::Readers::read_said, codec_cursor::specs::Readers::read_if))]
    pub fn read(c: Cursor, s: &[u8]) -> CredentialAt
        ensures { view_credential_at s.now result ≡ read_credential s.now c }
    {
        let credential = c.pass_said(s);
        let number = credential.pass_said(s).sn(s);
        let head = number.next;
        CredentialAt {
            registry: c.at,
            credential: credential.at,
            sn: number.value,
            head: head.at,
            next: head.pass_said(s),
        }
    }
}
