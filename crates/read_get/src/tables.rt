// The tables asked about a key, one after another: a table, a link's frozen table, all that is asked of a table, and level 0. A table with
// one of the key's three bits clear is not opened.
ghost use Rattle.std.specs.Prelude.{◌≤◌, ◌<◌, cond, [], ◌∷◌, reverse, length};
ghost use Rattle.ldc.specs.Layout.{most_places};
ghost use Rattle.ldc.specs.Store.{links, span_holds};
ghost use Rattle.ldc.specs.Probe.{asked_on};
ghost use Rattle.book.specs.Row.{the_link};
ghost use Rattle.read.specs.Shown.{Summed, ListSummed, shown_in};
ghost use Rattle.read_get.specs.Opens.{Asking, OpensIn, ranges};

use super::opened;
use super::opened::Opened;
use book::row;
use book::row::{Link, Row};
use coding::key::Key;
use read::{level, place};
use summary::bits::KeyBits;

// A place's table, if its summary has all three bits.
fn open_table(area: &[u8], cards: &[Row], p: usize, key: Key, three: KeyBits) -> Opened
    requires { Asking area.now cards.now key.value three × Summed area.now cards.now p }
    ensures { OpensIn area cards key (p ∷ []) result }
{
    if !row::may_hold(&cards[p], three) {
        return opened::nothing();
    }
    let bits = row::bits_set(&cards[p]);
    let Some(at) = place::find(area, p, key) else {
        return Opened {
            found: false,
            place: p,
            at: 0,
            tables: 1,
            bits,
        };
    };
    Opened {
        found: true,
        place: p,
        at,
        tables: 1,
        bits,
    }
}

// The frozen table of a link, if the link's range holds the key.
fn open_slice(area: &[u8], cards: &[Row], link: Link, key: Key, bits: KeyBits) -> Opened
    requires { Asking area.now cards.now key.value bits × Summed area.now cards.now link.place }
    ensures { OpensIn area cards key (ranges key.value (the_link link ∷ [])) result }
{
    if (link.low <= key) & (key <= link.high) {
        open_table(area, cards, link.place, key, bits)
    } else {
        opened::nothing()
    }
}

// A table's links, newest first.
fn open_links(area: &[u8], cards: &[Row], p: usize, key: Key, bits: KeyBits) -> Opened
    requires { Asking area.now cards.now key.value bits × (p < length cards.now) }
    ensures { OpensIn area cards key (ranges key.value (reverse (links (shown_in area cards) p))) result }
{
    let row = &cards[p];
    let n = row::link_count(row) as usize;
    let mut seen = opened::nothing();
    for i in (0..n).rev() {
        let next = open_slice(area, cards, row::link_at(row, i), key, bits);
        seen = opened::then(seen, next);
        if seen.found {
            return seen;
        }
    }
    seen
}

// The table itself, if its span holds the key. A key found there is one that the span holds, so the span is looked at only where it was not
// found.
fn open_own(area: &[u8], cards: &[Row], p: usize, key: Key, bits: KeyBits) -> Opened
    requires { Asking area.now cards.now key.value bits × Summed area.now cards.now p }
    ensures { OpensIn area cards key (cond (span_holds (shown_in area cards) p key.value) (p ∷ []) []) result }
{
    let own = open_table(area, cards, p, key, bits);
    if own.found | (own.tables == 0) {
        return own;
    }
    if level::span_holds(area, cards, p, key) {
        own
    } else {
        opened::nothing()
    }
}

// All that is asked of a table: its links, newest first, then itself.
pub fn open_sources(area: &[u8], cards: &[Row], p: usize, key: Key, bits: KeyBits) -> Opened
    requires { Asking area.now cards.now key.value bits × Summed area.now cards.now p }
    ensures { OpensIn area cards key (asked_on (shown_in area cards) key.value (p ∷ [])) result }
{
    let linked = open_links(area, cards, p, key, bits);
    if linked.found {
        return linked;
    }
    opened::then(linked, open_own(area, cards, p, key, bits))
}

// The tables of level 0, newest first.
pub fn open_newest(area: &[u8], cards: &[Row], items: &[u16], key: Key, bits: KeyBits) -> Opened
    requires { Asking area.now cards.now key.value bits
        × (ListSummed area.now cards.now items.now × (length items.now ≤ most_places)) }
    ensures { OpensIn area cards key (reverse items.now) result }
{
    let mut seen = opened::nothing();
    for &p in items.iter().rev() {
        let next = open_table(area, cards, usize::from(p), key, bits);
        seen = opened::then(seen, next);
        if seen.found {
            return seen;
        }
    }
    seen
}
