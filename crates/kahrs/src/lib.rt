// What 004 proves of its machine and its translation: laws only, in proofs/.
#![tactic(auto)]
