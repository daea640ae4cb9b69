// The rows of the cards: those saved, and free ones for the added places. The summaries are zero: see `summaries`.
ghost use Rattle.std.specs.Prelude.{◌≡◌, true, [], ◌∷◌, ◌+◌, ◌-◌, ◌≤◌, ◌<◌, length, replicate};
ghost use Rattle.std.proofs.lemmas.List.Edits.{sets};
ghost use Rattle.table.specs.Table.{zeros};
ghost use Rattle.summary.specs.Summary.{summary_words};
ghost use Rattle.ldc.specs.Store.{free};
ghost use Rattle.ldc.specs.Layout.{link_limit, link_start, link_words, row_with};
ghost use Rattle.saved_book.specs.Form.{places_saved, cards_start, link_width, count_saved, card_end, saved_form};
ghost use Rattle.saved_book.specs.Opened.{link_saved, row_saved, rows_saved, opened_rows};

use book::row;
use book::row::Row;
use coding::number;
use saved_form::layout;

// Writes the words of the link at a position of the bytes, as the i-th of a row.
fn put_link(s: &[u8], at: usize, row: &mut Row, i: usize)
    requires { (i < link_limit) × (at + link_width ≤ length s.now) }
    ensures { row.new ≡ sets row.old (link_start i) (link_words (link_saved s.now at ∷ [])) }
{
    let to = row::link_start(i);
    row[to] = u64::from(number::get_u16(s, at));
    row[to + row::LOW] = number::get_u64(s, at + layout::LOW);
    row[to + row::HIGH] = number::get_u64(s, at + layout::HIGH);
    row[to + row::NUMBER] = u64::from(number::get_u16(s, at + layout::LINK_NUMBER));
}

// How many links the card at a position has.
fn count_at(s: &[u8], at: usize) -> usize
    requires { card_end s.now at ≤ length s.now }
    ensures { result ≡ count_saved s.now at }
{
    usize::from(number::get_u16(s, at + layout::LINK_COUNT))
}

// The row of the card at a position.
fn read_row(s: &[u8], at: usize) -> Row
    requires { (count_saved s.now at ≤ link_limit) × (card_end s.now at ≤ length s.now) }
    ensures { result ≡ row_saved s.now at }
{
    let n = count_at(s, at);
    let mut row = [0u64; row::ROW_WORDS];
    row[row::STATE] = u64::from(number::get_u16(s, at));
    row[row::COUNT] = n as u64;
    for i in 0..n {
        put_link(s, at + layout::CARD_HEAD + layout::LINK * i, &mut row, i);
    }
    row
}

// The rows of the cards saved, which are as many.
fn put_rows(s: &[u8], rows: &mut [Row])
    requires { (saved_form s.now ≡ true) × (places_saved s.now ≡ length rows.old) }
    ensures { rows.new ≡ rows_saved (places_saved s.now) s.now cards_start }
{
    let mut at = layout::CARDS;
    for row in rows.iter_mut() {
        *row = read_row(s, at);
        at += layout::CARD_HEAD + layout::LINK * count_at(s, at);
    }
}

// Makes the places from a number on free.
fn free_from(rows: &mut [Row], from: usize)
    requires { from ≤ length rows.old }
    ensures { rows.new ≡ sets rows.old from (replicate (length rows.old - from) (row_with free (zeros summary_words))) }
{
    for i in from..rows.len() {
        row::free(rows, i);
    }
}

// The rows of so many places: those saved, and free ones for the added places.
#[tactic(auto, using(crate::proofs::Levels::head_long))]
pub fn read_rows(s: &[u8], rows: &mut [Row])
    requires { (saved_form s.now ≡ true) × (places_saved s.now ≤ length rows.old) }
    ensures { rows.new ≡ opened_rows (length rows.old) s.now }
{
    let n = usize::from(number::get_u16(s, layout::PLACES));
    put_rows(s, &mut rows[..n]);
    free_from(rows, n);
}
