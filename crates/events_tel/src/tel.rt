// The six events of a registry and its credentials (docs/RULES.md, "Event kinds").
ghost use Rattle.std.specs.Prelude.{◌≡◌};
ghost use Rattle.events_tel.specs.TelEvents.{kind_number, sn_of_kind};

use crate::Kind;
use codec_cursor::Sn;

impl Kind {
    // The byte that stands for the kind: `as u8` under a name, whose contract says which byte it is.
    pub fn number(self) -> u8
        ensures { result ≡ kind_number self }
    {
        self as u8
    }

    // The sequence number of an event of this kind: a vrt has its own, a revocation 1, any other 0.
    pub fn sn(self, own: Sn) -> Sn
        ensures { result ≡ sn_of_kind self own }
    {
        match self {
            Kind::Vrt => own,
            Kind::Rev | Kind::Brv => Sn { hi: 0, lo: 1 },
            Kind::Vcp | Kind::Iss | Kind::Bis => Sn { hi: 0, lo: 0 },
        }
    }
}
