// Which places are free, and taking the next: every place that the store takes is taken here.
#![tactic(auto)]

pub mod free;
pub mod take;
