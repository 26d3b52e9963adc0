// The events of a registry, behind the kind byte: six sections by kind (docs/RULES.md, "Bytes").
ghost use Rattle.std.specs.Prelude.{◌≡◌};
ghost use Rattle.codec.specs.Readers.{viewed};
ghost use Rattle.codec.specs.TelEvents.{view_event};
ghost use Rattle.codec.specs.Events.{read_vcp, read_vrt};

use cesr_sn::Sn;
use codec::section::{pass_prefixes, read_configs, read_toad};
use codec::{Configs, Kind, Listed, Read, TelEvent};
use codec_cursor::Cursor;
use events_seal::Seal;
use events_toad::Toad;

// An event with its other fields blank. A kind that carries no seal has Digest there.
pub fn blank(kind: Kind, said: usize, seal: Seal) -> TelEvent
    ensures { (result.kind ≡ kind) × (result.said ≡ said) × (result.seal ≡ seal) }
{
    let members = Listed {
        count: 0,
        start: Cursor::start(),
    };
    TelEvent {
        kind,
        said,
        issuer: 0,
        registry: 0,
        credential: 0,
        prior: 0,
        sn: Sn { hi: 0, lo: 0 },
        toad: Toad::from_wire(0),
        configs: Configs::empty(),
        backers: members,
        additions: members,
        seal,
    }
}

#[tactic(auto, unfolding(codec::specs::Events::read_vcp, codec_cursor::specs::Readers::read_said, codec_cursor::specs::Readers::read_identifier, codec_cursor::specs::Readers::read_if))]
pub fn read_vcp(c: Cursor, s: &[u8]) -> Read<TelEvent>
    ensures { viewed (view_event s.now) result ≡ read_vcp s.now c }
{
    let vcp = c.count(s, 2);
    let issuer = vcp.pass_said(s);
    let toad = read_toad(issuer.pass_identifier(s).count(s, 1), s);
    let configs = read_configs(toad.next, s);
    let backers = pass_prefixes(configs.next, s);
    let next = backers.next.count(s, 0).count(s, 0);
    let mut value = blank(Kind::Vcp, vcp.at, Seal::Digest);
    value.issuer = issuer.at;
    value.toad = toad.value;
    value.configs = configs.value;
    value.backers = backers.value;
    Read { value, next }
}

#[tactic(auto, unfolding(codec::specs::Events::read_vrt, codec_cursor::specs::Readers::read_said, codec_cursor::specs::Readers::read_if))]
pub fn read_vrt(c: Cursor, s: &[u8]) -> Read<TelEvent>
    ensures { viewed (view_event s.now) result ≡ read_vrt s.now c }
{
    let vrt = c.count(s, 3);
    let registry = vrt.pass_said(s);
    let prior = registry.pass_said(s);
    let sn = prior.pass_said(s).count(s, 2).sn(s);
    let toad = read_toad(sn.next, s);
    let cuts = pass_prefixes(toad.next.count(s, 0), s);
    let additions = pass_prefixes(cuts.next, s);
    let next = additions.next.count(s, 0);
    let mut value = blank(Kind::Vrt, vrt.at, Seal::Digest);
    value.registry = registry.at;
    value.prior = prior.at;
    value.sn = sn.value;
    value.toad = toad.value;
    value.backers = cuts.value;
    value.additions = additions.value;
    Read { value, next }
}
