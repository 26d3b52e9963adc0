// The fold of a credential's next event: from an attempt, its registry's state and the state before it to a refusal or to the next state (docs/RULES.md, "Orders").
#![tactic(auto)]

pub mod credential_state;

use registry_signatures::Counted;

// A revocation that is accepted but for what its callers have, the list of the registry's own backers and the held state: the signatures that those backers are still asked about, if they are, and where what is compared and kept stands in the attempt's bytes.
#[derive(Clone, Copy)]
pub struct Revocation {
    pub own: Option<Counted>,
    pub credential: usize,
    pub prior: usize,
    pub said: usize,
}
