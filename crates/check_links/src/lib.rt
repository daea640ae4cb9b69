// The rule of the check that asks for links: E of document 01, "Sound store".
#![tactic(auto)]

pub mod apart;
pub mod rule_e;
