// Marks of the places that links name, one for each place: what rules E and F compare. A link to no place marks none.
ghost use Rattle.std.specs.Prelude.{◌≡◌, true, length};
ghost use Rattle.ldc.specs.Lists.{all};
ghost use Rattle.book.specs.Row.{the_link, links_in};
ghost use Rattle.check_walk.specs.Links.{links_over, unmarked, links_marked};
ghost use Rattle.check_walk.specs.Lists.{names_places};

use book::row;
use book::row::{Link, Row};

// Marks the places that the links of this row name.
pub fn mark_row(row: &Row, marks: &mut [u8])
    ensures { marks.new ≡ links_marked marks.old (links_in row.now) }
{
    for j in 0..row::links_held(row) {
        let p = row::link_at(row, j).place;
        if p < marks.len() {
            marks[p] = 1;
        }
    }
}

// The same for all tables of a list.
pub fn mark_items(cards: &[Row], items: &[u16], marks: &mut [u8])
    requires { names_places (length cards.now) items.now ≡ true }
    ensures { marks.new ≡ links_marked marks.old (links_over cards.now items.now) }
{
    for &p in items {
        mark_row(&cards[usize::from(p)], marks);
    }
}

// Is the place that this link names not marked?
fn link_unmarked(l: Link, marks: &[u8]) -> bool
    ensures { result ≡ unmarked marks.now (the_link l) }
{
    marks.len() <= l.place || marks[l.place] == 0
}

// The same of all links of a row.
fn row_unmarked(row: &Row, marks: &[u8]) -> bool
    ensures { result ≡ all (unmarked marks.now) (links_in row.now) }
{
    for j in 0..row::links_held(row) {
        if !link_unmarked(row::link_at(row, j), marks) {
            return false;
        }
    }
    true
}

// The same of all tables of a list.
pub fn items_unmarked(cards: &[Row], items: &[u16], marks: &[u8]) -> bool
    requires { names_places (length cards.now) items.now ≡ true }
    ensures { result ≡ all (unmarked marks.now) (links_over cards.now items.now) }
{
    for &p in items {
        if !row_unmarked(&cards[usize::from(p)], marks) {
            return false;
        }
    }
    true
}
