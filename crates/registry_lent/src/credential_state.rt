// The fold of a credential whose state is lent: what may change of the state is stored.
ghost use Rattle.std.specs.Prelude.{◌≡◌};
ghost use Rattle.registry_credential_state.specs.CredentialFolds.{ingest_of};

use registry_credential_state::credential_state::ingest;
use registry_error::Answer;
use registry_state::RegistryState;
use registry_state_credential::CredentialState;

// The next event of a credential, whose state is lent. After a refusal it is as before; after acceptance its registry and its credential are.
pub fn ingest_mut(w: &mut CredentialState, g: RegistryState, s: &[u8]) -> Answer
    ensures { (result ≡ (ingest_of g w.old s.now).answer) × (w.new ≡ (ingest_of g w.old s.now).state) }
{
    let next = ingest(g, *w, s)?;
    w.sn = next.sn;
    w.head = next.head;
    Ok(())
}
