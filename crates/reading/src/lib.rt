// Readings of old and new crawlers (document 02, note 8): whole millimetres, or a 32-bit float of kilometres.
//
// A reading stands for whole millimetres: for one of them, or for every one whose exact distance rounds to the float. `float` makes a
// float of 32 bits; `interval` gives the millimetres of a reading; `body` reads a request's body and gives the keys on its line.
#![tactic(auto)]

pub mod body;
pub mod float;
pub mod interval;
