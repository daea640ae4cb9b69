// Reading a saved book's bytes into lent pieces (document 02, note 4). The bytes are of its form: callers have judged that.
//
// `rows` reads the cards, `lists` the four lists, `head` the words of the head, `memory` the memory table; `saved_form::layout` says where the fields
// stand. `summaries` works out what is not saved: the summaries on the cards.
#![tactic(auto)]

pub mod head;
pub mod lists;
pub mod memory;
pub mod rows;
pub mod summaries;
