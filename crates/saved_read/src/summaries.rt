// The summaries of the rows. They are not saved: they are worked out afresh from the tables in the area (document 02, note 6).
ghost use Rattle.std.specs.Prelude.{◌≡◌, length};
ghost use Rattle.table.specs.Limits.{place_size};
ghost use Rattle.ldc.specs.Lent.{places_in, chop};
ghost use Rattle.book.specs.Rows.{Sized};
ghost use Rattle.saved_book.specs.Opened.{fresh_summary, summed_rows};

use book::row::Row;
use book::{place, row};
use summary::filter;
use summary::filter::{SUMMARY_WORDS, Words};
use table::valid;

// Without a table: no bit is set.
const NO_TABLE: Words = [0; SUMMARY_WORDS];

// The summary for a row over its place's bytes: that of the table, if the place is live or frozen and holds one.
fn sum_place(row: &Row, bytes: &[u8]) -> Words
    requires { length bytes.now ≡ place_size }
    ensures { result ≡ fresh_summary row.now bytes.now }
{
    if row::is_free(row) {
        return NO_TABLE;
    }
    if valid::judge(bytes).is_none() {
        return NO_TABLE;
    }
    filter::of_table(bytes)
}

// Writes the summary of each row, over the place that it is the card of.
pub fn sum_rows(area: &[u8], rows: &mut [Row])
    requires { Sized area.now rows.old }
    ensures { rows.new
        ≡ summed_rows rows.old (chop (places_in area.now) area.now) }
{
    for p in 0..rows.len() {
        let words = sum_place(&rows[p], place::bytes_of(area, p));
        row::set_summary(rows, p, words);
    }
}
