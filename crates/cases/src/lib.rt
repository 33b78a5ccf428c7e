// The worked cases, moments and trees of RULES 13 and examples of a serial run and of R, proved of the definitions: specs/ has
// them, proofs/ the theorems.
#![tactic(auto)]
