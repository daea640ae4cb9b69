// The definition of the survey store. It has no code: `specs/` says what document 01 says, and `proofs/` what follows from it.
#![tactic(auto)]
