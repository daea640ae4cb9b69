// Rule B: each place is free or frozen and in no list, or live and in one list once; list items name places; only live cards hold links.
ghost use Rattle.std.specs.Prelude.{◌≡◌, true, cond, ◌&&◌, ◌≤◌, ◌*◌, eqb, length};
ghost use Rattle.ldc.specs.Store.{is_live};
ghost use Rattle.ldc.specs.Lent.{row_good};
ghost use Rattle.ldc.specs.Layout.{card_of, level_count};
ghost use Rattle.check_walk.specs.Lists.{names_places};
ghost use Rattle.check_places.specs.Lists.{bumped, tallied, listed, lists_good, places_good, walk_b};

use book::head::HeadWords;
use book::limits::LEVELS;
use book::row::Row;
use book::{list, row};
use table_builder::place;

// One more, up to 2, which stands for any more.
fn bump(k: u8) -> u8
    ensures { result ≡ bumped k }
{
    if k < 2 { k + 1 } else { k }
}

// Is this row's state one of three, and has it links only if it is live?
#[tactic(auto, unfolding(ldc::specs::Lent::row_good))]
fn row_good(row: &Row) -> bool
    ensures { result ≡ row_good row.now }
{
    let s = row::state(row);
    (s == row::LIVE) | ((s <= row::FROZEN) & (row::link_count(row) == 0))
}

// Counts how often each place stands in a list; stops at an item that names no place.
fn tally(items: &[u16], places: usize, counts: &mut [u8]) -> bool
    requires { places ≤ length counts.old }
    ensures { (result ≡ names_places places items.now)
        × (result ≡ true → counts.new ≡ tallied counts.old items.now) }
{
    for &p in items {
        let p = usize::from(p);
        if places <= p {
            return false;
        }
        counts[p] = bump(counts[p]);
    }
    true
}

// The same for all four lists; stops at one that is too long.
fn tally_all(lists: &[u16], head: &HeadWords, places: usize, counts: &mut [u8]) -> bool
    requires { (places ≤ length counts.old) × (length lists.now ≡ level_count * places) }
    ensures { (result ≡ lists_good places lists.now head.now)
        × (result ≡ true → counts.new ≡ tallied counts.old (listed level_count 0 places lists.now head.now)) }
{
    for n in 0..LEVELS {
        let len = list::length(head, n);
        if places < len {
            return false;
        }
        if !tally(list::items(lists, places, len, n), places, counts) {
            return false;
        }
    }
    true
}

// Is this row good, and is its place listed once if it is live, else not at all?
fn place_good(row: &Row, times: u8) -> bool
    ensures { result ≡ row_good row.now && eqb times (cond (is_live (card_of row.now)) 1 0) }
{
    row_good(row) & (times == u8::from(row::is_live(row)))
}

// The same of all rows.
fn places_good(cards: &[Row], counts: &[u8]) -> bool
    requires { length cards.now ≤ length counts.now }
    ensures { result ≡ places_good cards.now counts.now }
{
    for (p, row) in cards.iter().enumerate() {
        if !place_good(row, counts[p]) {
            return false;
        }
    }
    true
}

// In `counts` there is room for a count of each place.
pub fn kept(cards: &[Row], lists: &[u16], head: &HeadWords, counts: &mut [u8]) -> bool
    requires { (length counts.old ≡ length cards.now) × (length lists.now ≡ level_count * length cards.now) }
    ensures { result ≡ walk_b cards.now lists.now head.now }
{
    place::wipe(counts);
    tally_all(lists, head, cards.len(), counts) && places_good(cards, counts)
}
