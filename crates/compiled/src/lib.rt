// Code compiled from an accepted rule passes, and fits: laws only, in proofs/.
#![tactic(auto)]
