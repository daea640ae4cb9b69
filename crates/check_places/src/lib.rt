// The rules of the check that ask for places: B, C and F of document 01, "Sound store"; and what G says of parts not in use.
#![tactic(auto)]

pub mod rule_b;
pub mod rule_c;
pub mod rule_f;
pub mod unused;
