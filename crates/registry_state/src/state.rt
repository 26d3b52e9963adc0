// The state of a registry. It holds numbers alone, since a host lends it as memory and every pattern of bits has to be a value.
ghost use Rattle.std.specs.Prelude.{◌≡◌, true, ◌+◌, ◌≤◌, length};
ghost use Rattle.laws.specs.Room.{room, put};
ghost use Rattle.codec.specs.Readers.{viewed};
ghost use Rattle.codec.specs.Configs.{view_configs};
ghost use Rattle.events.specs.Members.{view};
ghost use Rattle.codec.specs.Events.{is_config};
ghost use Rattle.codec.specs.Layout.{all};
ghost use Rattle.registry_state.specs.States.{view_registry, registry_bytes, read_registry, no_registry, is_backer, well_registry};

use crate::RegistryState;
use cesr::{Matter, Said};
use cesr_sn::Sn;
use codec::section::{is_config, pass_prefixes, read_configs, read_prefixes};
use codec::{Configs, Cursor, Read};
use events::Members;
use events_toad::Toad;
use registry_bytes::writer::{state_size, write_registry};
use registry_bytes::{HeadParts, Terms};

impl RegistryState {
    // What stands where there is no registry.
    pub fn none() -> RegistryState
        ensures { view_registry result ≡ no_registry }
    {
        let none = Matter::none();
        let toad = Toad::from_wire(0);
        let configs = Configs::empty();
        let backers = Members::empty();
        RegistryState {
            id: Said(none),
            issuer: none,
            sn: Sn { hi: 0, lo: 0 },
            latest: Said(none),
            toad,
            configs,
            backers,
        }
    }

    // Whether its counts, letters and config bytes are within the limits. The tests are joined by `&`, with no branch: most states pass them all.
    pub fn well_formed(self) -> bool
        ensures { result ≡ well_registry self }
    {
        let issuer = self.issuer.is_basic() | self.issuer.is_said();
        let lists = all_configs(self.configs) & all_backers(self.backers);
        let letters = self.id.0.is_said() & (issuer & (self.latest.0.is_said() & lists));
        (self.configs.count <= 8) & ((self.backers.count <= 16) & letters)
    }

    // How many bytes it has: 121, the config bytes, and 33 for each backer.
    pub fn size(self) -> usize
        ensures { result ≡ length (registry_bytes (view_registry self)) }
    {
        state_size(self.configs, &self.backers)
    }

    // Stores all its bytes or none, and answers which.
    pub fn write(self, out: &mut [u8], at: usize) -> bool
        ensures { (result ≡ room out.old at (length (registry_bytes (view_registry self)))) × (out.new ≡ put out.old at (registry_bytes (view_registry self))) }
    {
        let head = HeadParts {
            first: self.id.0,
            second: self.issuer,
            sn: self.sn,
            last: self.latest.0,
        };
        let terms = Terms {
            toad: self.toad,
            configs: self.configs,
        };
        write_registry(out, at, &head, terms, &self.backers)
    }

    // Behind a state that is not wanted. It is held to its layout.
    pub fn pass(c: Cursor, s: &[u8]) -> Cursor
        ensures { result ≡ (read_registry s.now c).next }
    {
        let sn = c.pass_said(s).pass_identifier(s);
        let toad = sn.advance(s, 16).pass_said(s);
        let configs = read_configs(toad.advance(s, 4), s);
        let backers = pass_prefixes(configs.next, s);
        backers.next
    }

    // What is read is well formed, and its counts are within the limits even where it is not all there.
    pub fn read(c: Cursor, s: &[u8]) -> Read<RegistryState>
        ensures read { viewed view_registry result ≡ read_registry s.now c }
        ensures well { result.next.ok ≡ true → well_registry result.value ≡ true }
        ensures counts { (result.value.configs.count ≤ 8) × (result.value.backers.count ≤ 16) }
    {
        let id = c.said(s);
        let issuer = id.next.identifier(s);
        let sn = issuer.next.sn(s);
        let latest = sn.next.said(s);
        let toad = latest.next.quad(s);
        let configs = read_configs(toad.next, s);
        let backers = read_prefixes(configs.next, s);
        let next = backers.next;
        let id = id.value;
        let issuer = issuer.value;
        let sn = sn.value;
        let latest = latest.value;
        let toad = Toad::from_wire(toad.value);
        let configs = configs.value.trimmed();
        let backers = backers.value;
        let value = RegistryState {
            id,
            issuer,
            sn,
            latest,
            toad,
            configs,
            backers,
        };
        Read { value, next }
    }
}

// Whether every config byte is one.
pub fn all_configs(configs: Configs) -> bool
    ensures { result ≡ all is_config (view_configs configs) }
{
    configs.as_slice().iter().all(|b| is_config(*b))
}

fn all_backers(backers: Members) -> bool
    ensures { result ≡ all is_backer (view backers) }
{
    for i in 0..backers.size() {
        if !backers.items[i].0.is_basic() {
            return false;
        }
    }
    true
}
