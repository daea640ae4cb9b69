// Writing to the store: places taken, tables written to them, level lists changed.
//
// Single writes are said of the lent pieces to the word; what they are in the store is said where a step is put together.
#![tactic(auto)]

mod items;
pub mod level;
pub mod write;
