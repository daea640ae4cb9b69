// Levels 1 to 3: spans rise there, so a binary search finds the one table whose span can hold a key.
ghost use Rattle.std.specs.Prelude.{take, drop};
ghost use Rattle.ldc.specs.Probe.{asked_on};
ghost use Rattle.read.specs.Shown.{ListSummed, Rising, shown_in};
ghost use Rattle.read_get.specs.Opens.{Asking, OpensIn};

use super::opened::Opened;
use super::{opened, tables};
use book::row::Row;
use coding::key::Key;
use read::level;
use summary::bits::KeyBits;

// The i-th table of a level, if there is one.
fn open_at(area: &[u8], cards: &[Row], items: &[u16], i: usize, key: Key, bits: KeyBits) -> Opened
    requires { Asking area.now cards.now key.value bits × ListSummed area.now cards.now items.now }
    ensures { OpensIn area cards key (asked_on (shown_in area cards) key.value (take 1 (drop i items.now))) result }
{
    if items.len() <= i {
        return opened::nothing();
    }
    tables::open_sources(area, cards, usize::from(items[i]), key, bits)
}

// A level: the last table with a least key of at most this, and then the next, whose links may reach down to it.
pub fn open_level(area: &[u8], cards: &[Row], items: &[u16], key: Key, bits: KeyBits) -> Opened
    requires { Asking area.now cards.now key.value bits
        × (ListSummed area.now cards.now items.now × Rising area.now cards.now items.now) }
    ensures { OpensIn area cards key (asked_on (shown_in area cards) key.value items.now) result }
{
    let end = level::count_reached(area, cards, items, key);
    if end == 0 {
        return open_at(area, cards, items, end, key, bits);
    }
    let last = open_at(area, cards, items, end - 1, key, bits);
    if last.found {
        return last;
    }
    opened::then(last, open_at(area, cards, items, end, key, bits))
}
