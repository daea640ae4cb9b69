// One card, list or entry of saved bytes: does it stand whole and in its form at a position? If so, where does it end, which is where the
// next begins?
ghost use Rattle.std.specs.Prelude.{◌≡◌, cond, ◌&&◌, ◌+◌, ◌≤◌, leb, length};
ghost use Rattle.std.proofs.Math.Option.{some, none};
ghost use Rattle.saved_book.specs.Form.{cards_start, card_to, list_to, entry_to};
ghost use Rattle.book.specs.Place.{the_index};

use super::layout;
use book::limits::LINK_LIMIT;
use book::row;
use coding::number;
use table::{entry, limits, valid};

// The end of a field of so many bytes, if it is in its form and stands whole. Bytes left are counted, so that no sum can be too large.
fn end_of(s: &[u8], at: usize, len: usize, formed: bool) -> Option<usize>
    requires { at ≤ length s.now }
    ensures { the_index result ≡ cond (formed && leb (at + len) (length s.now)) (some (at + len)) none }
{
    if formed & (len <= s.len() - at) {
        Some(at + len)
    } else {
        None
    }
}

// A card: a state of 0 to 2, at most 8 links.
pub fn card_to(s: &[u8], at: usize) -> Option<usize>
    requires { at ≤ length s.now }
    ensures { the_index result ≡ card_to s.now at }
{
    if s.len() - at < layout::CARD_HEAD {
        return None;
    }
    let state = u64::from(number::get_u16(s, at));
    let count = usize::from(number::get_u16(s, at + layout::LINK_COUNT));
    let len = layout::CARD_HEAD + layout::LINK * count;
    end_of(s, at, len, (state <= row::FROZEN) & (count <= LINK_LIMIT))
}

// A list: at most P places, P being the number saved.
pub fn list_to(s: &[u8], at: usize) -> Option<usize>
    requires { (cards_start ≤ length s.now) × (at ≤ length s.now) }
    ensures { the_index result ≡ list_to s.now at }
{
    if s.len() - at < layout::NUMBER {
        return None;
    }
    let places = usize::from(number::get_u16(s, layout::PLACES));
    let count = usize::from(number::get_u16(s, at));
    let len = layout::NUMBER + layout::NUMBER * count;
    end_of(s, at, len, count <= places)
}

// An entry, by its own form.
pub fn entry_to(s: &[u8], at: usize) -> Option<usize>
    requires { at ≤ length s.now }
    ensures { the_index result ≡ entry_to s.now at }
{
    if s.len() - at < limits::ENTRY_HEAD {
        return None;
    }
    let len = usize::from(entry::length_at(s, at));
    let formed = valid::entry_form(entry::kind_at(s, at), len);
    end_of(s, at, len, formed)
}
