// Laws of the folds: specs/ has the definitions that they cite, proofs/ the laws. There is no code here.
#![tactic(auto)]
