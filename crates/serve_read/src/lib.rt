// Requests that read, with their replies.
#![tactic(auto)]

pub mod look_up;
pub mod probe;
pub mod report;
pub mod scan;
