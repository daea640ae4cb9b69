// Are bytes of the form of a saved book (number 21), and where do its parts stand? Any bytes at all may be given.
//
// `layout` says where the fields stand, `field` judges one of them, `parts` those that stand one behind the other, `form` the whole.
#![tactic(auto)]

pub mod field;
pub mod form;
pub mod layout;
pub mod parts;
