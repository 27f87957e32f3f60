// The crate is its specs/ and proofs/: the theory over trees. It has no code.
#![tactic(auto)]
