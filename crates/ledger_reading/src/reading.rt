// Whether the bytes are an attempt, asked only where no fold is run (docs/RULES.md, "Orders").
ghost use Rattle.std.specs.Prelude.{◌≡◌};
ghost use Rattle.ledger_asked.specs.Names.{decodes};
ghost use Rattle.ledger_reading.specs.Readings.{behind_reading};

use ledger_asked::asked::decodes;
use registry_error::RegistryRejection;

// What is refused where no fold is run: 1 of bytes that are no attempt, before any other refusal. A fold decodes the bytes, and answers 1 itself.
pub fn behind_reading(s: &[u8], refusal: RegistryRejection) -> RegistryRejection
    ensures { result ≡ behind_reading (decodes s.now) refusal }
{
    if decodes(s) {
        return refusal;
    }
    RegistryRejection::Malformed
}
