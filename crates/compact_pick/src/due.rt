// Which table's merge is due, and which has no links. A row is looked at first: of a table without links nothing else is, and of another
// at most its entry count.
ghost use Rattle.std.specs.Prelude.{◌≡◌, [], ◌<◌, leb};
ghost use Rattle.table.specs.Table.{entries, place_of};
ghost use Rattle.ldc.specs.Lists.{first};
ghost use Rattle.ldc.specs.Layout.{level_count};
ghost use Rattle.ldc.specs.Store.{Store};
ghost use Rattle.ldc.specs.Tidy.{weight, due_with, due_table};
ghost use Rattle.book.specs.Head.{head_words};
ghost use Rattle.book.specs.Pieces.{held_beside};
ghost use Rattle.book.specs.Place.{the_index};
ghost use Rattle.book.specs.Row.{links_in};
ghost use Rattle.book.specs.Rows.{links_on};
ghost use Rattle.read.specs.Look.{Levels};
ghost use Rattle.read.specs.Shown.{Legible, Tabled};
ghost use Rattle.compact_pick.specs.Calm.{CalmBut, looked_at};
ghost use Rattle.compact_pick.specs.Due.{passes_by, Items, ToldBy, the_due};

use book::head::Head;
use book::limits::LEVELS;
use book::row::Row;
use book::{list, row};
use read::place;

// What is wanted of a table: that its merge is due, by this threshold or by weight, or that it has no links.
#[derive(Clone, Copy)]
pub enum Wanted {
    DueBy(u64),
    Bare,
}

// A table whose merge is due: its level, and its place.
#[derive(Clone, Copy)]
pub struct Due {
    pub level: usize,
    pub place: usize,
}

// Do the numbers of a row's links add up to at least this? They are taken off it one by one, so that no sum can be too large.
fn weighs(row: &Row, own: u64) -> bool
    ensures { result ≡ leb own (weight (links_in row.now)) }
{
    let mut left = own;
    for j in 0..row::links_held(row) {
        let number = row::link_at(row, j).number;
        if left <= number {
            return true;
        }
        left -= number;
    }
    left == 0
}

// Is a table's merge due?
fn is_due(area: &[u8], cards: &[Row], p: usize, threshold: u64) -> bool
    requires { Legible area.now cards.now × Tabled area.now p }
    ensures { result ≡ due_with threshold (links_on cards.now p) (entries (place_of area.now p)) }
{
    let n = row::link_count(&cards[p]);
    if threshold <= n {
        return true;
    }
    if n == 0 {
        return false;
    }
    weighs(&cards[p], place::count(area, p) as u64)
}

// Is the table as wanted?
fn passes(area: &[u8], cards: &[Row], p: usize, wanted: Wanted) -> bool
    requires { Legible area.now cards.now × Tabled area.now p }
    ensures { result ≡ passes_by area.now cards.now wanted p }
{
    match wanted {
        Wanted::DueBy(threshold) => is_due(area, cards, p, threshold),
        Wanted::Bare => row::link_count(&cards[p]) == 0,
    }
}

// The first place of a list whose table is as wanted.
pub fn find_table(area: &[u8], cards: &[Row], items: &[u16], wanted: Wanted) -> Option<usize>
    requires { Items area.now cards.now items.now }
    ensures { the_index result ≡ first (passes_by area.now cards.now wanted) items.now }
{
    for &item in items {
        let p = usize::from(item);
        if passes(area, cards, p, wanted) {
            return Some(p);
        }
    }
    None
}

// How many tables of level n are looked at: all, or none where only another level can have a due one.
fn count_looked_at(head: Head, suspect: usize, n: usize) -> usize
    requires { n < level_count }
    ensures { result ≡ looked_at (head_words head) suspect n }
{
    if (suspect < LEVELS) & (suspect != n) {
        return 0;
    }
    head.length_of(n)
}

// The due table of the lowest level, and there of the lowest keys. `suspect` is the one level that can have any, or says nothing.
pub fn find_due(
    area: &[u8],
    cards: &[Row],
    lists: &[u16],
    head: Head,
    suspect: usize,
) -> Option<Due>
    requires { Levels area.now cards.now lists.now (head_words head) }
    ensures { (s : Store) → ToldBy s (held_beside area.now cards.now lists.now head []) → CalmBut suspect s → the_due result ≡ due_table s }
{
    for n in 1..LEVELS {
        let items = list::items(lists, cards.len(), count_looked_at(head, suspect, n), n);
        if let Some(place) = find_table(area, cards, items, Wanted::DueBy(head.threshold)) {
            return Some(Due { level: n, place });
        }
    }
    None
}
