// Laws of a ledger in one block, without code: what an attempt and an image leave of it.
#![tactic(auto)]
