// The fold of a credential's first event: from an attempt and its registry's state to a refusal or to the first state (docs/RULES.md, "Orders").
#![tactic(auto)]

pub mod credential_state;

use registry_signatures::Counted;

// An issue that is accepted but for the registry's own backers: the signatures that those are still asked about, if they are, and where what its state is made of stands in the attempt's bytes.
#[derive(Clone, Copy)]
pub struct Issue {
    pub own: Option<Counted>,
    pub said: usize,
    pub credential: usize,
    pub registry: usize,
}
