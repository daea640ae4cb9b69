// The summary of a table: 256 bits, three of them set for each of its keys (document 02, note 6).
//
// A look-up opens only tables whose summary has all three bits of the key. `bits` gives the three bits of a key; `filter` makes a
// table's summary, tests it for a key, counts its bits and compares it.
#![tactic(auto)]

pub mod bits;
pub mod filter;
