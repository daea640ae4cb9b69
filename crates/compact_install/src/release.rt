// Freeing the frozen places that no link names any more: which these are is decided before the merge, by a search of the level.
ghost use Rattle.std.specs.Prelude.{◌≡◌, [], ◌≤◌, ◌<◌, length, get_or, drop};
ghost use Rattle.compact_install.specs.Release.{row_names, held_in, held_among, places_named, Flags, freed_in, Clear, Names, Sought, SoughtAll};

use book::limits::LINK_LIMIT;
use book::row;
use book::row::Row;
use read::{level, place};

// Does a link of place q's card name place f?
fn row_names(cards: &[Row], q: usize, f: usize) -> bool
    requires { (q < length cards.now) × Clear (get_or cards.now q []) }
    ensures { result ≡ row_names f (get_or cards.now q []) }
{
    for i in 0..row::link_count(&cards[q]) as usize {
        if row::link_at(&cards[q], i).place == f {
            return true;
        }
    }
    false
}

// Does a link of one of these tables from the i-th on, but for place p, name place f? Spans rise, so the search ends with the first table
// whose least key is above all of f's.
fn is_held_from(area: &[u8], cards: &[Row], items: &[u16], i: usize, p: usize, f: usize) -> bool
    requires { Sought area.now cards.now items.now f × (i ≤ length items.now) }
    ensures { result ≡ held_among p f cards.now (drop i items.now) }
{
    let last = place::greatest(area, f);
    for &q in &items[i..] {
        let q = usize::from(q);
        if (q != p) & row_names(cards, q, f) {
            return true;
        }
        if last < place::least(area, q) {
            return false;
        }
    }
    false
}

// Does a link of a card other than place p's name place f? The tables that can are found by f's least key.
fn is_held(area: &[u8], cards: &[Row], items: &[u16], p: usize, f: usize) -> bool
    requires { Sought area.now cards.now items.now f × (p < length cards.now) }
    ensures { result ≡ held_in p f cards.now }
{
    let i = level::count_passed(area, cards, items, place::least(area, f));
    is_held_from(area, cards, items, i, p, f)
}

// Which of the places that place p's links name are held by another table of its level?
pub fn find_held(area: &[u8], cards: &[Row], items: &[u16], p: usize) -> [bool; LINK_LIMIT]
    requires { SoughtAll area.now cards.now items.now p }
    ensures { Flags cards.now p result }
{
    let mut held = [false; LINK_LIMIT];
    for i in 0..row::link_count(&cards[p]) as usize {
        let link = row::link_at(&cards[p], i);
        held[i] = is_held(area, cards, items, p, link.place);
    }
    held
}

// Of the places that the links of this row named, frees those that no other table holds.
pub fn release(cards: &mut [Row], row: Row, held: [bool; LINK_LIMIT])
    requires { Names row (length cards.old) }
    ensures { cards.new ≡ freed_in held (places_named row) cards.old }
{
    for i in 0..row::link_count(&row) as usize {
        if !held[i] {
            row::free(cards, row::link_at(&row, i).place);
        }
    }
}
