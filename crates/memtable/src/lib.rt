// The memory table: an entry put into it, in place of the one with its key or between those around it.
#![tactic(auto)]

mod entries;
pub mod put;
