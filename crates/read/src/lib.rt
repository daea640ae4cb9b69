// Reading a sound store: one place as a table, the spans of a level, and what a search answers. specs/Shown says what the lent pieces must
// be like.
//
// `read_get` looks one key up, `read_gather` and `read_iterator` take keys in order. Nothing here changes the store.
#![tactic(auto)]

pub mod found;
pub mod level;
pub mod place;
