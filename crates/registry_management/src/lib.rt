// A registry's state without its list of backers, for the events of its credentials (docs/RULES.md, "Evidence").
#![tactic(auto)]

ghost use Rattle.std.specs.Prelude.{◌≡◌};
ghost use Rattle.events.specs.Members.{view};
ghost use Rattle.registry_state.specs.States.{view_registry, read_registry};
ghost use Rattle.registry_management.specs.Managements.{view_management, view_management_read};

use cesr::{Matter, Said};
use cesr_sn::Sn;
use codec::section::{pass_prefixes, read_configs};
use codec_cursor::Cursor;
use events_tel::{Configs, Listed};
use events_toad::Toad;
pub use registry_state::RegistryState;

#[derive(Clone, Copy)]
pub struct Management {
    pub id: Said,
    // An identifier.
    pub issuer: Matter,
    pub sn: Sn,
    // The digest of the last event.
    pub latest: Said,
    pub toad: Toad,
    pub configs: Configs,
}

// The backers stay in the bytes.
#[derive(Clone, Copy)]
pub struct ManagementRead {
    pub value: Management,
    pub backers: Listed,
    pub next: Cursor,
}

pub fn management_of(g: RegistryState) -> Management
    ensures { view_management result (view g.backers) ≡ view_registry g }
{
    let id = g.id;
    let issuer = g.issuer;
    let sn = g.sn;
    let latest = g.latest;
    let toad = g.toad;
    let configs = g.configs;
    Management {
        id,
        issuer,
        sn,
        latest,
        toad,
        configs,
    }
}

// The same of a state in bytes, which is held to its layout as a whole.
pub fn read_management(c: Cursor, s: &[u8]) -> ManagementRead
    ensures { view_management_read s.now result ≡ read_registry s.now c }
{
    let id = c.said(s);
    let issuer = id.next.identifier(s);
    let sn = issuer.next.sn(s);
    let latest = sn.next.said(s);
    let toad = latest.next.quad(s);
    let configs = read_configs(toad.next, s);
    let listed = pass_prefixes(configs.next, s);
    let backers = listed.value;
    let next = listed.next;
    let id = id.value;
    let issuer = issuer.value;
    let sn = sn.value;
    let latest = latest.value;
    let toad = Toad::from_wire(toad.value);
    let configs = configs.value;
    let value = Management {
        id,
        issuer,
        sn,
        latest,
        toad,
        configs,
    };
    ManagementRead {
        value,
        backers,
        next,
    }
}
