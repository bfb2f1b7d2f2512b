// Code that passes has a step everywhere: laws only, in proofs/.
#![tactic(auto)]
