// What a look-up answers, from the row that a search for the key found (docs/RULES.md, "Look-up").
ghost use Rattle.std.specs.Prelude.{◌≡◌, ◌&&◌, eqb, Some};
ghost use Rattle.cesr_sn.specs.Numbers.{value};
ghost use Rattle.ledger_step.specs.Ledgers.{well_pair};
ghost use Rattle.ledger_standing.specs.Lookups.{standing_number, view_looked_up, key_pair, row_standing, looked_up_of};

use crate::{Malformed, Standing};
use cesr::Said;
use cesr_sn::Sn;
use registry_state_credential::CredentialState;

// Whether there is a standing: the ledger keeps to the reading rules, and both parts of the key are saids.
fn has_standing(sound: bool, registry: Said, credential: Said) -> bool
    ensures { result ≡ (sound && well_pair (key_pair registry credential)) }
{
    sound & (registry.0.is_said() & credential.0.is_said())
}

// A credential is issued at sn 0; each later sn is a revocation's.
fn is_issued(row: CredentialState) -> bool
    ensures { result ≡ eqb (value row.sn) 0 }
{
    row.sn == Sn { hi: 0, lo: 0 }
}

fn standing_of(row: CredentialState) -> Standing
    ensures { standing_number result ≡ row_standing (Some row) }
{
    if is_issued(row) {
        return Standing::Issued;
    }
    Standing::Revoked
}

// What the row says that a search for the key found. Where it found none the credential is unknown.
#[tactic(auto, unfolding(crate::specs::Lookups::looked_up_of))]
pub fn standing(
    sound: bool,
    row: Option<CredentialState>,
    registry: Said,
    credential: Said,
) -> Result<Standing, Malformed>
    ensures { view_looked_up result ≡ looked_up_of sound row (key_pair registry credential) }
{
    if !has_standing(sound, registry, credential) {
        return Err(Malformed);
    }
    match row {
        Some(row) => Ok(standing_of(row)),
        None => Ok(Standing::Unknown),
    }
}
