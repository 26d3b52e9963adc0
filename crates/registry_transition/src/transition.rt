// The place of a revocation behind the held state of its credential (docs/RULES.md, "Orders").
ghost use Rattle.std.specs.Prelude.{◌≡◌};
ghost use Rattle.cesr.specs.Primitives.{said_at};
ghost use Rattle.registry_state_credential.specs.CredentialStates.{credential_at};
ghost use Rattle.registry_transition.specs.Transitions.{transition};

use cesr::Said;
use cesr_sn::Sn;
use registry_error::{Answer, RegistryRejection};
use registry_state_credential::{CredentialAt, CredentialState};
use registry_verification::sequence::next_sn;

// What is left of a rev or brv: the credential, and its place behind the held state.
pub fn transition(w: CredentialState, credential: Said, prior: Said) -> Answer
    ensures { result ≡ transition w credential prior }
{
    if credential != w.credential {
        return Err(RegistryRejection::InconsistentCredential);
    }
    next_sn(w.sn, Sn { hi: 0, lo: 1 })?;
    if prior != w.head {
        return Err(RegistryRejection::PriorDigestMismatch);
    }
    Ok(())
}

// The same of a state, a credential and a prior that stay in their bytes.
pub fn transition_in(
    held: &[u8],
    w: CredentialAt,
    s: &[u8],
    credential: usize,
    prior: usize,
) -> Answer
    ensures { result ≡ transition (credential_at held.now w) (said_at s.now credential) (said_at s.now prior) }
{
    let state = CredentialState {
        registry: Said::read(held, w.registry),
        credential: Said::read(held, w.credential),
        sn: w.sn,
        head: Said::read(held, w.head),
    };
    transition(state, Said::read(s, credential), Said::read(s, prior))
}
