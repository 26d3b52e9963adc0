// Examples for the claim about two orders: its conditions can be met, and each of them is needed. specs/ has the ledgers, the attempts and
// the sentences, proofs/ their proofs. There is no code here.
#![tactic(auto)]
