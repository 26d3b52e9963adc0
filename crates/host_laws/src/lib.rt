// Laws of a ledger that is lent as one block, whose arrays are lent on where they lie: proofs/ has them, for the walks of the crate `host`. There is no code here.
#![tactic(auto)]
