// A place's card as a row of words: state, link count, then place, low, high and number of each link, and the summary. Rows are read and
// written here by their words, and everywhere else by these functions.
ghost use Rattle.std.specs.Prelude.{◌≡◌, [], ◌&&◌, ◌≤◌, ◌<◌, length, get_or, set};
ghost use Rattle.std.proofs.lemmas.List.Edits.{sets};
ghost use Rattle.table.specs.Table.{zeros};
ghost use Rattle.summary.specs.Bits.{has_bit};
ghost use Rattle.summary.specs.Summary.{summary_words, bytes_in, bits_set, same_words};
ghost use Rattle.ldc.specs.Store.{free, live, is_free, is_live, is_frozen};
ghost use Rattle.ldc.specs.Layout.{link_limit, state_of, link_count, card_of, link_start, link_at, summary_start, summary_in, row_with};
ghost use Rattle.book.specs.Row.{the_link, links_in, link_added, frozen_row};

use super::limits::LINK_LIMIT;
use coding::key::Key;
use summary::bits::KeyBits;
use summary::filter;
use summary::filter::{SUMMARY_WORDS, Words};

// A slice link: a frozen place, a key range, both ends included, and the number of the place's entries in that range.
#[derive(Clone, Copy)]
pub struct Link {
    pub place: usize,
    pub low: Key,
    pub high: Key,
    pub number: u64,
}

// The words before the links, and those of one link.
pub const ROW_HEAD: usize = 2;

pub const LINK_WORDS: usize = 4;

// Where the summary's words stand, behind the room for links.
pub const SUMMARY: usize = ROW_HEAD + LINK_WORDS * LINK_LIMIT;

pub const ROW_WORDS: usize = SUMMARY + SUMMARY_WORDS;

pub type Row = [u64; ROW_WORDS];

// Where the words of the head stand, and those of a link from its start on.
pub const STATE: usize = 0;

pub const COUNT: usize = 1;

pub const LOW: usize = 1;

pub const HIGH: usize = 2;

pub const NUMBER: usize = 3;

// The states of a place.
pub const FREE: u64 = 0;

pub const LIVE: u64 = 1;

pub const FROZEN: u64 = 2;

// The state that a row says.
#[tactic(auto, unfolding(ldc::specs::Layout::state_of))]
pub fn state(row: &Row) -> u64
    ensures { result ≡ state_of row.now }
{
    row[STATE]
}

// Is the place free? Any state but the other two says so.
pub fn is_free(row: &Row) -> bool
    ensures { result ≡ is_free (card_of row.now) }
{
    let s = state(row);
    (s != LIVE) & (s != FROZEN)
}

pub fn is_live(row: &Row) -> bool
    ensures { result ≡ is_live (card_of row.now) }
{
    state(row) == LIVE
}

pub fn is_frozen(row: &Row) -> bool
    ensures { result ≡ is_frozen (card_of row.now) }
{
    state(row) == FROZEN
}

// How many links the row says it has.
#[tactic(auto, unfolding(ldc::specs::Layout::link_count))]
pub fn link_count(row: &Row) -> u64
    ensures { result ≡ link_count row.now }
{
    row[COUNT]
}

// How many links the row has, whatever it says: those of a live one, and no more than there is room for.
pub fn links_held(row: &Row) -> usize
    ensures { result ≡ length (links_in row.now) }
{
    if is_live(row) {
        link_count(row).min(LINK_LIMIT as u64) as usize
    } else {
        0
    }
}

// Where the words of the i-th link begin.
pub fn link_start(i: usize) -> usize
    requires { i ≤ link_limit }
    ensures { result ≡ link_start i }
{
    ROW_HEAD + LINK_WORDS * i
}

// The i-th link, counted from 0, oldest first.
pub fn link_at(row: &Row, i: usize) -> Link
    requires { i < link_limit }
    ensures { the_link result ≡ link_at row.now i }
{
    let at = link_start(i);
    Link {
        place: row[at] as usize,
        low: Key {
            value: row[at + LOW],
        },
        high: Key {
            value: row[at + HIGH],
        },
        number: row[at + NUMBER],
    }
}

// The words of a row's summary.
pub fn summary_of(row: &Row) -> &[u64]
    ensures { (result.now ≡ summary_in row.now) × (length result.now ≡ summary_words) }
{
    let words = &row[..];
    &words[SUMMARY..]
}

// May the place's table hold a key with these three bits?
pub fn may_hold(row: &Row, bits: KeyBits) -> bool
    requires { (bits.exclusive < 256) × ((bits.sum < 256) × (bits.weighed < 256)) }
    ensures { result ≡ has_bit (bytes_in (summary_in row.now)) bits.exclusive
        && (has_bit (bytes_in (summary_in row.now)) bits.sum
        && has_bit (bytes_in (summary_in row.now)) bits.weighed) }
{
    filter::may_hold(summary_of(row), bits)
}

// How many bits of its summary are set.
pub fn bits_set(row: &Row) -> usize
    ensures { result ≡ bits_set (bytes_in (summary_in row.now)) }
{
    filter::count(summary_of(row))
}

// Is this its summary?
pub fn has_summary(row: &Row, right: Words) -> bool
    ensures { result ≡ same_words (summary_in row.now) right }
{
    filter::same(summary_of(row), right)
}

// Writes a summary into a row.
pub fn set_summary(cards: &mut [Row], p: usize, words: Words)
    requires { p < length cards.old }
    ensures { cards.new ≡ set cards.old p (sets (get_or cards.old p []) summary_start words) }
{
    cards[p][SUMMARY..].copy_from_slice(&words);
}

// Makes the place free: no links, no summary.
pub fn free(cards: &mut [Row], p: usize)
    requires { p < length cards.old }
    ensures { cards.new ≡ set cards.old p (row_with free (zeros summary_words)) }
{
    cards[p] = [0u64; ROW_WORDS];
}

// Makes it live, without links; its table's summary is to be written.
pub fn make_live(cards: &mut [Row], p: usize)
    requires { p < length cards.old }
    ensures { cards.new ≡ set cards.old p (row_with (live []) (zeros summary_words)) }
{
    let mut row = [0u64; ROW_WORDS];
    row[STATE] = LIVE;
    cards[p] = row;
}

// Makes a place without links frozen; its summary stays.
pub fn freeze(cards: &mut [Row], p: usize)
    requires { p < length cards.old }
    ensures { cards.new ≡ set cards.old p (frozen_row (get_or cards.old p [])) }
{
    cards[p][STATE] = FROZEN;
}

// Adds a link behind the last of a row that has room for it.
#[tactic(auto, unfolding(ldc::specs::Layout::link_count))]
pub fn add_link(cards: &mut [Row], p: usize, link: Link)
    requires { (p < length cards.old) × (link_count (get_or cards.old p []) < link_limit) }
    ensures { cards.new ≡ set cards.old p (link_added (the_link link) (get_or cards.old p [])) }
{
    let row = &mut cards[p];
    let n = row[COUNT] as usize;
    let at = link_start(n);
    row[at] = link.place as u64;
    row[at + LOW] = link.low.value;
    row[at + HIGH] = link.high.value;
    row[at + NUMBER] = link.number;
    row[COUNT] = (n + 1) as u64;
}
