// One level below 0: where a table's span ends, whether it reaches a key, starts by it or holds it, how many tables a key has reached or
// passed, and whether one of their spans holds it.
ghost use Rattle.std.specs.Prelude.{◌≡◌, ◌+◌, ◌≤◌, ◌<◌, leb, length};
ghost use Rattle.ldc.specs.Lists.{any};
ghost use Rattle.ldc.specs.Store.{span_start, span_end, span_holds};
ghost use Rattle.read.specs.Shown.{shown_in, Tabled, Legible, Rising};
ghost use Rattle.read.specs.Level.{rank};

use super::place;
use book::row;
use book::row::Row;
use coding::key::Key;

// Where a table's span ends: the greatest of its own keys and its links' range ends.
pub fn span_end(area: &[u8], cards: &[Row], p: usize) -> Key
    requires { Legible area.now cards.now × Tabled area.now p }
    ensures { result.value ≡ span_end (shown_in area cards) p }
{
    let row = &cards[p];
    let n = row::link_count(row) as usize;
    let mut end = place::greatest(area, p);
    for i in 0..n {
        let link = row::link_at(row, i);
        end = end.max(link.low.max(link.high));
    }
    end
}

// Does a table's span reach up to a key, or beyond it? Its links are asked first: its own greatest key is behind all other entries.
pub fn reaches(area: &[u8], cards: &[Row], p: usize, key: Key) -> bool
    requires { Legible area.now cards.now × Tabled area.now p }
    ensures { result ≡ leb key.value (span_end (shown_in area cards) p) }
{
    let row = &cards[p];
    let n = row::link_count(row) as usize;
    for i in 0..n {
        let link = row::link_at(row, i);
        if key <= link.low.max(link.high) {
            return true;
        }
    }
    key <= place::greatest(area, p)
}

// Does a table's span start at a key, or below it?
fn starts_by(area: &[u8], cards: &[Row], p: usize, key: Key) -> bool
    requires { Legible area.now cards.now × Tabled area.now p }
    ensures { result ≡ leb (span_start (shown_in area cards) p) key.value }
{
    let row = &cards[p];
    let links = row::link_count(row) as usize;
    for i in 0..links {
        let link = row::link_at(row, i);
        if link.low.min(link.high) <= key {
            return true;
        }
    }
    place::least(area, p) <= key
}

// Does a table's span hold a key?
#[tactic(auto, unfolding(ldc::specs::Store::span_holds))]
pub fn span_holds(area: &[u8], cards: &[Row], p: usize, key: Key) -> bool
    requires { Legible area.now cards.now × Tabled area.now p }
    ensures { result ≡ span_holds (shown_in area cards) p key.value }
{
    starts_by(area, cards, p, key) && reaches(area, cards, p, key)
}

// How many tables have a least key of at most this one: as many as it has passed, or one more, whose span may reach it.
pub fn count_reached(area: &[u8], cards: &[Row], items: &[u16], key: Key) -> usize
    requires { Legible area.now cards.now × Rising area.now cards.now items.now }
    ensures { (result ≤ length items.now)
        × ((rank (shown_in area cards) key.value items.now ≤ result)
        × (result ≤ rank (shown_in area cards) key.value items.now + 1)) }
{
    let mut low = 0;
    let mut high = items.len();
    while low < high {
        let mid = low + (high - low) / 2;
        if key < place::least(area, usize::from(items[mid])) {
            high = mid;
        } else {
            low = mid + 1;
        }
    }
    low
}

// How many tables it has passed: those in front whose spans end below it.
pub fn count_passed(area: &[u8], cards: &[Row], items: &[u16], key: Key) -> usize
    requires { Legible area.now cards.now × Rising area.now cards.now items.now }
    ensures { result ≡ rank (shown_in area cards) key.value items.now }
{
    let end = count_reached(area, cards, items, key);
    if end == 0 {
        return 0;
    }
    let last = end - 1;
    if reaches(area, cards, usize::from(items[last]), key) {
        last
    } else {
        end
    }
}

// Does the span of one of the tables hold a key? Of those that it has not passed only the first can.
pub fn holds(area: &[u8], cards: &[Row], items: &[u16], key: Key) -> bool
    requires { Legible area.now cards.now × Rising area.now cards.now items.now }
    ensures { result ≡ any (λ p. span_holds (shown_in area cards) p key.value) items.now }
{
    let at = count_passed(area, cards, items, key);
    if items.len() <= at {
        return false;
    }
    starts_by(area, cards, usize::from(items[at]), key)
}
