// The last part of rule E: links naming one place share no key and hang on one level.
//
// Across levels, marks tell whether a place is named on two. Within a level, where the spans rise (rule G) links on different tables
// share no key, so only the links of one table are compared with each other. Where the spans don't rise, the store is broken anyway,
// and E is judged by comparing every table of the level with every other: the only pass that is quadratic in the number of tables.
ghost use Rattle.std.specs.Prelude.{◌≡◌, true, length, drop};
ghost use Rattle.table.specs.Table.{zeros};
ghost use Rattle.ldc.specs.Lists.{all};
ghost use Rattle.book.specs.Rows.{links_on};
ghost use Rattle.book.specs.Row.{the_link, links_in};
ghost use Rattle.check_walk.specs.Links.{Readable, Walkable, pairs, apart_in, cross_apart, links_over, levels_apart};
ghost use Rattle.check_walk.specs.Lists.{names_places};

use book::head::HeadWords;
use book::limits::LEVELS;
use book::row::{Link, Row};
use book::{list, row};
use check_walk::{named, span};
use table_builder::place;

// Do two links of one level name different places, or share no key?
fn links_apart(g: Link, h: Link) -> bool
    ensures { result ≡ apart_in (the_link g) (the_link h) }
{
    (g.place != h.place) | ((g.high < h.low) | (h.high < g.low))
}

// Is a link apart from those of a row, from the one at `from` on?
fn link_apart(g: Link, row: &Row, from: usize) -> bool
    ensures { result ≡ all (apart_in (the_link g)) (drop from (links_in row.now)) }
{
    (from..row::links_held(row)).all(|j| links_apart(g, row::link_at(row, j)))
}

// Are the links of a row apart from each other?
pub fn own_apart(row: &Row) -> bool
    ensures { result ≡ pairs apart_in (links_in row.now) }
{
    (0..row::links_held(row)).all(|j| link_apart(row::link_at(row, j), row, j + 1))
}

// Are the links of one row apart from those of another?
fn rows_apart(a: &Row, b: &Row) -> bool
    ensures { result ≡ cross_apart (links_in a.now) (links_in b.now) }
{
    (0..row::links_held(a)).all(|j| link_apart(row::link_at(a, j), b, 0))
}

// Are the links of each table of a list apart from each other?
fn owns_apart(cards: &[Row], items: &[u16]) -> bool
    requires { names_places (length cards.now) items.now ≡ true }
    ensures { result ≡ all (λ p. pairs apart_in (links_on cards.now p)) items.now }
{
    items.iter().all(|&p| own_apart(&cards[usize::from(p)]))
}

// Are the links of a row apart from those of all tables of a list?
fn rest_apart(cards: &[Row], row: &Row, items: &[u16]) -> bool
    requires { names_places (length cards.now) items.now ≡ true }
    ensures { result ≡ all (λ q. cross_apart (links_in row.now) (links_on cards.now q)) items.now }
{
    items
        .iter()
        .all(|&q| rows_apart(row, &cards[usize::from(q)]))
}

// Are the links of different tables of a list apart? Compares each table with all behind it.
fn tables_apart(cards: &[Row], items: &[u16]) -> bool
    requires { names_places (length cards.now) items.now ≡ true }
    ensures { result ≡ pairs (λ p q. cross_apart (links_on cards.now p) (links_on cards.now q)) items.now }
{
    for (i, &p) in items.iter().enumerate() {
        if !rest_apart(cards, &cards[usize::from(p)], &items[i + 1..]) {
            return false;
        }
    }
    true
}

// Are the links of a level apart?
fn level_apart(area: &[u8], cards: &[Row], ends: &[u64], items: &[u16]) -> bool
    requires { Readable area.now cards.now ends.now items.now }
    ensures { result ≡ pairs apart_in (links_over cards.now items.now) }
{
    if !owns_apart(cards, items) {
        return false;
    }
    if span::rise(area, cards, ends, items) {
        return true;
    }
    tables_apart(cards, items)
}

// Are the links of levels 1 to 3 apart? In `marks` there is room for a mark of each place.
pub fn levels_apart(
    area: &[u8],
    cards: &[Row],
    lists: &[u16],
    head: &HeadWords,
    ends: &[u64],
    marks: &mut [u8],
) -> bool
    requires { Walkable area.now cards.now lists.now head.now ends.now × (length marks.old ≡ length cards.now) }
    ensures { result ≡ levels_apart 3 1 cards.now lists.now head.now (zeros (length cards.now)) }
{
    place::wipe(marks);
    for n in 1..LEVELS {
        let items = list::items(lists, cards.len(), list::length(head, n), n);
        if !named::items_unmarked(cards, items, marks) {
            return false;
        }
        if !level_apart(area, cards, ends, items) {
            return false;
        }
        named::mark_items(cards, items, marks);
    }
    true
}
