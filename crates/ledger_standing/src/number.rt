// The number of a standing (docs/RULES.md, "Look-up").
ghost use Rattle.std.specs.Prelude.{◌≡◌};
ghost use Rattle.ledger_standing.specs.Lookups.{standing_number};

use crate::Standing;

impl Standing {
    pub fn number(self) -> u8
        ensures { result ≡ standing_number self }
    {
        self as u8
    }
}
