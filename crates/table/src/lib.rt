// Entries and tables in bytes: the formats of document 01, their limits and their laws.
//
// docs/FORMATS.md has the layout. The memory table has the form of a place's table, so everything here serves both.
// `entry` reads an entry, `search` finds one, `valid` says whether bytes are a table; `table_builder` writes them.
#![tactic(auto)]

pub mod entry;
pub mod limits;
pub mod search;
pub mod valid;
