// The cards, the lists and the memory entries of saved bytes: fields that stand one behind the other.
ghost use Rattle.std.specs.Prelude.{◌≡◌, ℕ, ◌≤◌, length, Some};
ghost use Rattle.saved_book.specs.Form.{cards_start, cards_to, lists_to, memory_to};
ghost use Rattle.book.specs.Place.{the_index};
ghost use Rattle.saved_form.specs.Turns.{Turns};

use super::{field, layout};
use book::limits::LEVELS;
use coding::number;
use table::limits::TABLE_LIMIT;

// Where so many fields end that stand one behind the other, the first at a position; `field` says where the one at a position ends.
fn in_turn<F: Fn(&[u8], usize) -> Option<usize>>(
    s: &[u8],
    from: usize,
    n: usize,
    field: F,
) -> Option<usize>
    requires begun { from ≤ length s.now }
    requires callable { (at : ℕ) → at ≤ length s.now → F.pre field s at }
    requires within { (at end : ℕ) → at ≤ length s.now → F.post field s at (Some end) → end ≤ length s.now }
    ensures { Turns (F.post field) s.now n from result }
{
    let mut at = from;
    for _ in 0..n {
        at = field(s, at)?;
    }
    Some(at)
}

// Where the cards end, as many as places were saved.
pub fn cards_to(s: &[u8]) -> Option<usize>
    requires { cards_start ≤ length s.now }
    ensures { the_index result ≡ cards_to s.now }
{
    let n = usize::from(number::get_u16(s, layout::PLACES));
    in_turn(s, layout::CARDS, n, field::card_to)
}

// Where the four lists end.
pub fn lists_to(s: &[u8], from: usize) -> Option<usize>
    requires { (cards_start ≤ length s.now) × (from ≤ length s.now) }
    ensures { the_index result ≡ lists_to s.now from }
{
    in_turn(s, from, LEVELS, field::list_to)
}

// Where the memory entries end, which stand behind their count: at most 16.
pub fn memory_to(s: &[u8], at: usize) -> Option<usize>
    requires { at ≤ length s.now }
    ensures { the_index result ≡ memory_to s.now at }
{
    if s.len() - at < layout::NUMBER {
        return None;
    }
    let n = usize::from(number::get_u16(s, at));
    if TABLE_LIMIT < n {
        return None;
    }
    in_turn(s, at + layout::NUMBER, n, field::entry_to)
}
