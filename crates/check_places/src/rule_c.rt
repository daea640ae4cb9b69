// Rule C: live and frozen places hold tables, and the bits of their cards are right. The tables' greatest keys are noted on the way, for the
// spans of rules E and G.
ghost use Rattle.std.specs.Prelude.{◌≡◌, true, false, ◌&&◌, ◌||◌, ◌≤◌, length, is_some, IfSome};
ghost use Rattle.table.specs.Limits.{place_size};
ghost use Rattle.table.specs.Table.{is_table, entries};
ghost use Rattle.table.specs.Search.{greatest_key};
ghost use Rattle.ldc.specs.Store.{is_free};
ghost use Rattle.ldc.specs.Lent.{summary_good};
ghost use Rattle.ldc.specs.Layout.{card_of};
ghost use Rattle.book.specs.Rows.{Sized};
ghost use Rattle.check_places.specs.Links.{walk_c, Noted};

use book::row::Row;
use book::{place, row};
use coding::key::Key;
use summary::filter;
use table::valid;

// Is this place free, or does it hold a table whose bits are on the card? If so, the table's greatest key, of a free place the least of all.
fn judge_place(row: &Row, place: &[u8]) -> Option<Key>
    requires { length place.now ≡ place_size }
    ensures good { is_some result ≡ (is_free (card_of row.now) || is_table place.now) && summary_good row.now place.now }
    ensures greatest { is_free (card_of row.now) ≡ false → IfSome result (λ k. k.value ≡ greatest_key (entries place.now)) }
{
    if row::is_free(row) {
        return Some(Key::LEAST);
    }
    let greatest = valid::judge(place)?;
    if row::has_summary(row, filter::of_table(place)) {
        Some(greatest)
    } else {
        None
    }
}

// Are all places good? The greatest key of each table is then noted at its place's number.
pub fn kept(area: &[u8], cards: &[Row], ends: &mut [u64]) -> bool
    requires { Sized area.now cards.now × (length cards.now ≤ length ends.old) }
    ensures { (result ≡ walk_c area.now cards.now)
        × (result ≡ true → Noted area.now cards.now ends.new) }
{
    for p in 0..cards.len() {
        let Some(greatest) = judge_place(&cards[p], place::bytes_of(area, p)) else {
            return false;
        };
        ends[p] = greatest.value;
    }
    true
}
