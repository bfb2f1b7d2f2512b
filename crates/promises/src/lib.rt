// The demands, as statements in specs/ and their proofs in proofs/; no work of its own.
#![tactic(auto)]
