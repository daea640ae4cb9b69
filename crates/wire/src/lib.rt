// The bytes of requests and replies, and why a call is refused.
#![tactic(auto)]

pub mod body;
pub mod kinds;
pub mod list;
pub mod refusal;
pub mod reply;
pub mod results;
