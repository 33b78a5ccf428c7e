// All short days of RULES 15: specs/ has the lists and what is claimed of them, proofs/ the theorems.
#![tactic(auto)]
