// Building a table: an empty one, and entries put behind the last.
#![tactic(auto)]

pub mod append;
pub mod place;
