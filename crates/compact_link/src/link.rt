// Hanging slices of a chosen table on the tables below that are responsible for one of its entries.
ghost use Rattle.std.specs.Prelude.{◌≡◌, [], ◌≤◌, length, get_or, set};
ghost use Rattle.book.specs.Row.{frozen_row};
ghost use Rattle.read.specs.Shown.{Tabled, table_in};
ghost use Rattle.compact_link.specs.Range.{seen, keeper, high_of, slice_at, slices_seen, hung_row, hung_rows, Hosts, Linkable};

use super::range;
use book::row;
use book::row::{Link, Row};
use coding::key::Key;
use read::place;

// Which of the tables gained a link, and to where it is responsible.
#[derive(Clone, Copy)]
pub struct Hung {
    pub at: usize,
    pub high: Key,
}

// Hangs a slice of p on the table that is responsible for a key.
fn hang_at(area: &[u8], cards: &mut [Row], items: &[u16], p: usize, from: Key, key: Key) -> Hung
    requires { Hosts area.now cards.old from.value items.now × ((1 ≤ length items.now) × Tabled area.now p) }
    ensures { (result.at ≡ keeper (seen area.now cards.old) key.value items.now)
        × ((result.high.value ≡ high_of (seen area.now cards.old) items.now result.at)
        × (cards.new
        ≡ hung_row (table_in area p) (slice_at (seen area.now cards.old) p from.value items.now result.at) cards.old)) }
{
    let at = range::keeper_of(area, cards, items, key);
    let low = range::low_end(area, cards, items, at, from);
    let high = range::high_end(area, cards, items, at);
    let number = place::count_within(area, p, low, high) as u64;
    row::add_link(
        cards,
        items[at] as usize,
        Link {
            place: p,
            low,
            high,
            number,
        },
    );
    Hung { at, high }
}

// Hangs all slices of p: for each the next entry of p decides which table is responsible, and the tables passed by have none.
fn hang_all(area: &[u8], cards: &mut [Row], items: &[u16], p: usize)
    requires { Hosts area.now cards.old 0 items.now × Tabled area.now p }
    ensures { cards.new ≡ hung_rows (table_in area p) (slices_seen area cards items p) cards.old }
{
    let mut first = 0;
    let mut from = Key::LEAST;
    while first < items.len() {
        let Some(at) = place::seek(area, p, from) else {
            return;
        };
        let key = place::key_of(area, p, at);
        let hung = hang_at(area, cards, &items[first..], p, from, key);
        first += hung.at + 1;
        if first == items.len() {
            return;
        }
        from = Key {
            value: hung.high.value + 1,
        };
    }
}

// Link: the chosen table is frozen, and each table below that is responsible for an entry of it gains a link.
pub fn link(area: &[u8], cards: &mut [Row], items: &[u16], p: usize)
    requires { Linkable area.now cards.old items.now p }
    ensures { cards.new ≡ hung_rows (table_in area p) (slices_seen area cards items p) (set cards.old p (frozen_row (get_or cards.old p []))) }
{
    row::freeze(cards, p);
    hang_all(area, cards, items, p);
}
