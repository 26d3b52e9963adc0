// Definitions and laws over any width, length or element type: specs/ has the definitions, proofs/ the laws. There is no code here.
#![tactic(auto)]
