// Serving a list of requests, one after the other.
#![tactic(auto)]

pub mod list;
mod request;
