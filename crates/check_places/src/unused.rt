// What rule G says of parts of the book that are not in use: they are zero. Each number is looked at, without an end at the first that is
// not: so several are at a time.
ghost use Rattle.std.specs.Prelude.{◌≡◌, ℕ, ◌*◌, ◌≤◌, ◌<◌, length, drop};
ghost use Rattle.table.specs.Table.{all_zero};
ghost use Rattle.ldc.specs.Lists.{all, all_from};
ghost use Rattle.ldc.specs.Layout.{link_start, summary_start, mark_good, marks_good, row_rest, level_count, length_in};
ghost use Rattle.check_places.specs.Parts.{list_rest_zero};

use book::head::{FLAG1, FLAG2, HeadWords, KEY1, KEY2};
use book::limits::{LEVELS, LINK_LIMIT};
use book::row::Row;
use book::{list, row};

// A mark's flag is 1, or 0 with a key of 0.
#[tactic(auto, unfolding(ldc::specs::Layout::mark_good))]
fn mark_good(flag: u64, key: u64) -> bool
    ensures { result ≡ mark_good flag key }
{
    (flag == 1) | ((flag == 0) & (key == 0))
}

// The same of both marks of a head.
pub fn head_marks_good(head: &HeadWords) -> bool
    ensures { result ≡ marks_good head.now }
{
    mark_good(head[FLAG1], head[KEY1]) & mark_good(head[FLAG2], head[KEY2])
}

// Are all of these numbers, words or items, `zero`?
fn all_are<T: Copy + PartialEq>(numbers: &[T], zero: T) -> bool
    ensures { result ≡ all (λ x. T.eq x zero) numbers.now }
{
    let mut found = true;
    for &x in numbers {
        found &= x == zero;
    }
    found
}

// Are the words behind n links zero, up to the summary's?
fn links_rest_zero(words: &[u64], n: u64) -> bool
    requires { length words.now ≡ summary_start }
    ensures { result ≡ all_zero (drop (link_start n) words.now) }
{
    if (LINK_LIMIT as u64) < n {
        return true;
    }
    all_are(&words[row::link_start(n as usize)..], 0)
}

// Are the words of a row zero that are not in use: those behind its links, and the summary's of a free place?
pub fn row_rest_zero(row: &Row) -> bool
    ensures { result ≡ all_zero (row_rest row.now) }
{
    if row::is_free(row) & !all_are(row::summary_of(row), 0) {
        return false;
    }
    links_rest_zero(&row[..row::SUMMARY], row::link_count(row))
}

// Are the items of all lists behind those in use zero?
pub fn lists_rest_zero(lists: &[u16], head: &HeadWords, places: usize) -> bool
    requires { (length lists.now ≡ level_count * places) × ((n : ℕ) → n < level_count → length_in head.now n ≤ places) }
    ensures { result ≡ all_from level_count 0 (list_rest_zero places lists.now head.now) }
{
    for n in 0..LEVELS {
        let len = list::length(head, n);
        if !all_are(list::rest(lists, places, len, n), 0) {
            return false;
        }
    }
    true
}
