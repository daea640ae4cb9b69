// The form of a whole saved book (document 02, note 4: number 21).
ghost use Rattle.std.specs.Prelude.{◌≡◌, ◌+◌, ◌≤◌, length};
ghost use Rattle.coding.specs.Number.{number_at};
ghost use Rattle.ldc.specs.Layout.{mark_good};
ghost use Rattle.ldc.specs.Request.{key_size};
ghost use Rattle.saved_book.specs.Saved.{number_size};
ghost use Rattle.saved_book.specs.Form.{head_form};
ghost use Rattle.saved_form.specs.Form.{form_of};

use super::{layout, parts};
use book::limits;
use coding::number;

// Where the parts of a saved book stand: how many places it has, where its lists begin, and its memory entries with their count.
#[derive(Clone, Copy)]
pub struct Parts {
    pub places: usize,
    pub lists: usize,
    pub memory: usize,
}

// Is the flag at a position 1, or 0 with a key of 0 behind it?
fn mark_form(s: &[u8], at: usize) -> bool
    requires { at + (number_size + key_size) ≤ length s.now }
    ensures { result ≡ mark_good (number_at number_size s.now at) (number_at key_size s.now (at + number_size)) }
{
    let flag = number::get_u16(s, at);
    let key = number::get_u64(s, at + layout::NUMBER);
    (flag == 1) | ((flag == 0) & (key == 0))
}

// Is all in front of the cards in its form?
fn head_form(s: &[u8]) -> bool
    ensures { result ≡ head_form s.now }
{
    if s.len() < layout::CARDS {
        return false;
    }
    let whole = number::get_u32(s, layout::WHOLE) as usize;
    let kind = number::get_u16(s, layout::KIND);
    let places = usize::from(number::get_u16(s, layout::PLACES));
    (whole == s.len())
        & ((kind == layout::SAVED_KIND)
            & ((limits::FEWEST_PLACES <= places)
                & ((places <= limits::MOST_PLACES)
                    & (mark_form(s, layout::FLAG1) & mark_form(s, layout::FLAG2)))))
}

// Are these bytes of the form of a saved book? If so, where do its parts stand? Any bytes at all may be given.
pub fn form_of(s: &[u8]) -> Option<Parts>
    ensures { result ≡ form_of s.now }
{
    if !head_form(s) {
        return None;
    }
    let lists = parts::cards_to(s)?;
    let memory = parts::lists_to(s, lists)?;
    let end = parts::memory_to(s, memory)?;
    if end != s.len() {
        return None;
    }
    let places = usize::from(number::get_u16(s, layout::PLACES));
    Some(Parts {
        places,
        lists,
        memory,
    })
}
