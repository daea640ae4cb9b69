// Which table of a level is responsible for a key, and from where to where.
ghost use Rattle.std.specs.Prelude.{◌≡◌};
ghost use Rattle.compact_link.specs.Range.{seen, Among, keeper, low_of, high_of};

use book::row::Row;
use coding::key::Key;
use read::level;

// The table that is responsible for a key: the first whose span does not end below it, or else the last.
#[tactic(auto, unfolding(crate::specs::Range::keeper))]
pub fn keeper_of(area: &[u8], cards: &[Row], items: &[u16], key: Key) -> usize
    requires { Among area.now cards.now items.now 0 }
    ensures { result ≡ keeper (seen area.now cards.now) key.value items.now }
{
    level::count_passed(area, cards, items, key).min(items.len() - 1)
}

// From where the i-th table is responsible: one above the previous span's end, for the first from the key given.
pub fn low_end(area: &[u8], cards: &[Row], items: &[u16], i: usize, from: Key) -> Key
    requires { Among area.now cards.now items.now i }
    ensures { result.value ≡ low_of (seen area.now cards.now) from.value items.now i }
{
    if i == 0 {
        return from;
    }
    let end = level::span_end(area, cards, items[i - 1] as usize);
    Key {
        value: end.value + 1,
    }
}

// To where the i-th table is responsible: its own span's end, for the last the greatest key.
pub fn high_end(area: &[u8], cards: &[Row], items: &[u16], i: usize) -> Key
    requires { Among area.now cards.now items.now i }
    ensures { result.value ≡ high_of (seen area.now cards.now) items.now i }
{
    if i + 1 == items.len() {
        return Key::GREATEST;
    }
    level::span_end(area, cards, items[i] as usize)
}
