// The rules that a row keeps or breaks by itself (docs/RULES.md, "Reading rules").
ghost use Rattle.std.specs.Prelude.{◌≡◌, ◌&&◌};
ghost use Rattle.registry_state_credential.specs.CredentialStates.{well_credential};
ghost use Rattle.ledger_step.specs.Ledgers.{zero_or_one};

use cesr_sn::Sn;
use registry_state_credential::CredentialState;

// Whether the row is well formed and has the sn 0 or 1.
pub fn row_sound(w: CredentialState) -> bool
    ensures { result ≡ (well_credential w && zero_or_one w) }
{
    let two = Sn { hi: 0, lo: 2 };
    w.well_formed() & (w.sn < two)
}
