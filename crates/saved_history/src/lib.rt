// A history that goes on over saved books: runs, and between them saving and opening over other lent memory. It has no code:
// `specs/` says what demand 3 is of such a history, and `proofs/` that it holds.
#![tactic(auto)]
