// Saving a book and opening a saved one, over whatever is lent: refused by number with nothing changed, or done.
//
// `save` checks the store and writes its book's bytes. `open` judges the bytes, reads them into working rows that the caller lends and into
// memory of its own, works out the summaries, has the store as opened checked there, and only then carries it over: the lent book is not written
// before.
#![tactic(auto)]

pub mod open;
pub mod save;
