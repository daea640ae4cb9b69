// Numbers, keys and hexadecimal digits as bytes.
#![tactic(auto)]

pub mod hex;
pub mod key;
pub mod number;
