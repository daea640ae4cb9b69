// A saved book: what its bytes are, and what opening makes of them. It has no code: `specs/` says what note 4 of
// document 02 says, and `proofs/` what follows from it.
#![tactic(auto)]
