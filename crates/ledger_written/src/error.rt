// The number of a refusal (docs/RULES.md, "Refusals").
ghost use Rattle.std.specs.Prelude.{◌≡◌};
ghost use Rattle.ledger_written.specs.Writes.{error_number};

use crate::WriteError;

impl WriteError {
    pub fn number(self) -> u8
        ensures { result ≡ error_number self }
    {
        self as u8
    }
}
