// All that rules E, F and G ask of a row by itself, in one pass over the rows.
ghost use Rattle.std.specs.Prelude.{◌≡◌, true, map};
ghost use Rattle.ldc.specs.Lists.{all, flat};
ghost use Rattle.book.specs.Rows.{Sized};
ghost use Rattle.book.specs.Row.{links_in};
ghost use Rattle.check_walk.specs.Links.{links_marked};
ghost use Rattle.check_places.specs.Links.{walk_c};
ghost use Rattle.check_quick.specs.Rest.{row_kept};

use book::row::Row;
use check_links::{apart, rule_e};
use check_places::unused;
use check_walk::named;

// Has this row at most T links, all good and apart from each other, and zeros behind them?
#[tactic(auto, unfolding(crate::specs::Rest::row_kept))]
fn row_kept(area: &[u8], cards: &[Row], threshold: u64, row: &Row) -> bool
    requires { Sized area.now cards.now × (walk_c area.now cards.now ≡ true) }
    ensures { result ≡ row_kept area.now cards.now threshold row.now }
{
    rule_e::row_hangs(area, cards, threshold, row)
        && apart::own_apart(row)
        && unused::row_rest_zero(row)
}

// The same of all rows. The places that their links name are then marked.
pub fn rows_kept(area: &[u8], cards: &[Row], threshold: u64, marks: &mut [u8]) -> bool
    requires { Sized area.now cards.now × (walk_c area.now cards.now ≡ true) }
    ensures { (result ≡ all (row_kept area.now cards.now threshold) cards.now)
        × (result ≡ true → marks.new ≡ links_marked marks.old (flat (map links_in cards.now))) }
{
    for row in cards {
        if !row_kept(area, cards, threshold, row) {
            return false;
        }
        named::mark_row(row, marks);
    }
    true
}
