// The book in lent memory: the head, the rows of the cards, the level lists and the places, by the layout of docs/DECISIONS.md, 1.
//
// Everything here knows where words stand; nothing knows what a table holds.
#![tactic(auto)]

pub mod head;
pub mod limits;
pub mod list;
pub mod place;
pub mod row;
pub mod sizes;
