// What comes out of a merge, built in a buffer before anything is written to the store: `sift` says which of the gathered entries do,
// `tables` gathers them and writes them in tables.
#![tactic(auto)]

mod sift;
pub mod tables;
