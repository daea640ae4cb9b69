// Running a list to its end and handing on its answers, however little room for them there is.
#![tactic(auto)]

pub mod deliver;
pub mod piece;
mod skip;
