// Requests that write, with their replies.
#![tactic(auto)]

pub mod put;
pub mod steps;
