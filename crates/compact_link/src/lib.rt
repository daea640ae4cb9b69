// Takes a chosen table one level down: it moves if the next level is empty, and is linked to the tables below otherwise. Only the tables
// that gain a link, and those of a binary search for each, are read.
#![tactic(auto)]

pub mod down;
mod link;
mod range;
