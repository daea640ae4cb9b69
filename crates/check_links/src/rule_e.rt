// Rule E: links hang only on levels 1 to 3, at most T a table; low is not above high; each names a frozen place and holds at least
// one of its entries; its number is that of the place's entries in its range; links naming one place share no key and hang on one level
// (the last part is in `apart`).
ghost use Rattle.std.specs.Prelude.{◌≡◌, true, not, ◌&&◌, eqb, length};
ghost use Rattle.table.specs.Table.{entries, TablePlace};
ghost use Rattle.table.specs.Search.{count_within};
ghost use Rattle.ldc.specs.Lists.{all};
ghost use Rattle.ldc.specs.Rules.{link_good};
ghost use Rattle.book.specs.Rows.{Sized, shown_by};
ghost use Rattle.book.specs.Row.{the_link, links_in};
ghost use Rattle.check_walk.specs.Links.{Walkable};
ghost use Rattle.check_walk.specs.Lists.{names_places};
ghost use Rattle.check_places.specs.Links.{walk_c, row_hangs, cards_hang, bare, walk_e};

use super::apart;
use book::head::{HeadWords, THRESHOLD};
use book::row::{Link, Row};
use book::{list, place, row};
use table::search;

// Is the link's number that of a table's entries in its range? It is not zero, so that the link holds at least one of them.
fn numbered(place: &[u8], l: Link) -> bool
    requires { TablePlace place.now }
    ensures { result ≡ not (eqb l.number 0) && eqb l.number (count_within l.low.value l.high.value (entries place.now)) }
{
    let n = search::count_within(place, l.low, l.high);
    (l.number != 0) & (l.number == n as u64)
}

// Is this link good by itself?
fn link_good(area: &[u8], cards: &[Row], l: Link) -> bool
    requires { Sized area.now cards.now × (walk_c area.now cards.now ≡ true) }
    ensures { result ≡ link_good (shown_by area.now cards.now) (the_link l) }
{
    if l.high < l.low {
        return false;
    }
    let p = l.place;
    if cards.len() <= p {
        return false;
    }
    if !row::is_frozen(&cards[p]) {
        return false;
    }
    numbered(place::bytes_of(area, p), l)
}

// Are all links of this row good?
fn links_good(area: &[u8], cards: &[Row], row: &Row) -> bool
    requires { Sized area.now cards.now × (walk_c area.now cards.now ≡ true) }
    ensures { result ≡ all (link_good (shown_by area.now cards.now)) (links_in row.now) }
{
    (0..row::links_held(row)).all(|j| link_good(area, cards, row::link_at(row, j)))
}

// Has this row at most T links, all of them good?
pub fn row_hangs(area: &[u8], cards: &[Row], threshold: u64, row: &Row) -> bool
    requires { Sized area.now cards.now × (walk_c area.now cards.now ≡ true) }
    ensures { result ≡ row_hangs area.now cards.now threshold row.now }
{
    if threshold < row::link_count(row) {
        return false;
    }
    links_good(area, cards, row)
}

// The same of all rows.
fn cards_hang(area: &[u8], cards: &[Row], threshold: u64) -> bool
    requires { Sized area.now cards.now × (walk_c area.now cards.now ≡ true) }
    ensures { result ≡ cards_hang area.now cards.now threshold }
{
    cards
        .iter()
        .all(|row| row_hangs(area, cards, threshold, row))
}

// Have the tables of this list no links?
pub fn all_bare(cards: &[Row], items: &[u16]) -> bool
    requires { names_places (length cards.now) items.now ≡ true }
    ensures { result ≡ bare cards.now items.now }
{
    items
        .iter()
        .all(|&p| row::links_held(&cards[usize::from(p)]) == 0)
}

// In `marks` there is room for a mark of each place.
pub fn kept(
    area: &[u8],
    cards: &[Row],
    lists: &[u16],
    head: &HeadWords,
    ends: &[u64],
    marks: &mut [u8],
) -> bool
    requires { (Walkable area.now cards.now lists.now head.now ends.now × (walk_c area.now cards.now ≡ true))
        × (length marks.old ≡ length cards.now) }
    ensures { result ≡ walk_e area.now cards.now lists.now head.now }
{
    if !cards_hang(area, cards, head[THRESHOLD]) {
        return false;
    }
    let len = list::length(head, 0);
    if !all_bare(cards, list::items(lists, cards.len(), len, 0)) {
        return false;
    }
    apart::levels_apart(area, cards, lists, head, ends, marks)
}
