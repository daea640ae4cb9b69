// What more than one rule of the check walks: the places that links name, and the spans of tables.
#![tactic(auto)]

pub mod named;
pub mod span;
