// Rule G: in levels 1 to 3 each table's span ends below the start of the next span; parts of the book not in use are zero.
ghost use Rattle.std.specs.Prelude.{◌≡◌};
ghost use Rattle.table.specs.Table.{all_zero};
ghost use Rattle.ldc.specs.Lists.{all, all_from};
ghost use Rattle.ldc.specs.Layout.{row_rest};
ghost use Rattle.check_walk.specs.Links.{Walkable};
ghost use Rattle.check_places.specs.Parts.{level_rises, walk_g};

use book::head::HeadWords;
use book::limits::LEVELS;
use book::list;
use book::row::Row;
use check_places::unused;
use check_walk::span;

// Are the words of all rows behind their links zero?
fn rows_rest_zero(cards: &[Row]) -> bool
    ensures { result ≡ all (λ row. all_zero (row_rest row)) cards.now }
{
    cards.iter().all(|row| unused::row_rest_zero(row))
}

// Do the spans of levels 1 to 3 rise?
fn levels_rise(area: &[u8], cards: &[Row], lists: &[u16], head: &HeadWords, ends: &[u64]) -> bool
    requires { Walkable area.now cards.now lists.now head.now ends.now }
    ensures { result ≡ all_from 3 1 (level_rises area.now cards.now lists.now head.now) }
{
    for n in 1..LEVELS {
        let len = list::length(head, n);
        if !span::rise(area, cards, ends, list::items(lists, cards.len(), len, n)) {
            return false;
        }
    }
    true
}

pub fn kept(area: &[u8], cards: &[Row], lists: &[u16], head: &HeadWords, ends: &[u64]) -> bool
    requires { Walkable area.now cards.now lists.now head.now ends.now }
    ensures { result ≡ walk_g area.now cards.now lists.now head.now }
{
    if !unused::head_marks_good(head) {
        return false;
    }
    if !rows_rest_zero(cards) {
        return false;
    }
    if !unused::lists_rest_zero(lists, head, cards.len()) {
        return false;
    }
    levels_rise(area, cards, lists, head, ends)
}
