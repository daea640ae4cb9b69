// Pieces that proofs by hand share. It has no code: `proofs/` says what they are.
#![tactic(auto)]
