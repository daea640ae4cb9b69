// Rule F: a place is frozen exactly if a link names it.
ghost use Rattle.std.specs.Prelude.{◌≡◌, cond, map, ◌≤◌, eqb, length};
ghost use Rattle.ldc.specs.Lists.{flat};
ghost use Rattle.ldc.specs.Store.{is_frozen};
ghost use Rattle.ldc.specs.Layout.{card_of};
ghost use Rattle.book.specs.Row.{links_in};
ghost use Rattle.check_walk.specs.Links.{links_marked};
ghost use Rattle.check_places.specs.Links.{walk_f, marks_fit};

use book::row;
use book::row::Row;
use check_walk::named;
use table_builder::place;

// Marks the places that the links of all cards name.
fn mark_all(cards: &[Row], marks: &mut [u8])
    ensures { marks.new ≡ links_marked marks.old (flat (map links_in cards.now)) }
{
    for row in cards {
        named::mark_row(row, marks);
    }
}

// Is this row's place marked exactly if it is frozen?
fn mark_good(row: &Row, mark: u8) -> bool
    ensures { result ≡ eqb mark (cond (is_frozen (card_of row.now)) 1 0) }
{
    mark == u8::from(row::is_frozen(row))
}

// The same of all rows.
pub fn marks_good(cards: &[Row], marks: &[u8]) -> bool
    requires { length cards.now ≤ length marks.now }
    ensures { result ≡ marks_fit cards.now marks.now }
{
    for (p, row) in cards.iter().enumerate() {
        if !mark_good(row, marks[p]) {
            return false;
        }
    }
    true
}

// In `marks` there is room for a mark of each place.
pub fn kept(cards: &[Row], marks: &mut [u8]) -> bool
    requires { length marks.old ≡ length cards.now }
    ensures { result ≡ walk_f cards.now }
{
    place::wipe(marks);
    mark_all(cards, marks);
    marks_good(cards, marks)
}
