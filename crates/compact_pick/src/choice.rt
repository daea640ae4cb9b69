// The choice in a level: the first table without links, from the one behind the mark on, going round.
ghost use Rattle.std.specs.Prelude.{◌≡◌, ◌++◌, ◌≤◌, ◌<◌, length, get_or, take, drop};
ghost use Rattle.std.proofs.Math.Option.{some};
ghost use Rattle.ldc.specs.Store.{Store};
ghost use Rattle.ldc.specs.Tidy as tidy;
ghost use Rattle.book.specs.Head.{the_mark};
ghost use Rattle.read.specs.Shown.{Listed};
ghost use Rattle.compact_pick.specs.Due.{Reads};
ghost use Rattle.compact_pick.specs.Plan.{Choices, OnLevel, level_plan};

use super::due::Wanted;
use super::{Plan, due};
use book::row::Row;
use coding::key::Key;
use read::place;

// How many tables stand before the first whose least own key exceeds this key.
fn count_passed(area: &[u8], items: &[u16], key: Key) -> usize
    requires { Listed area.now items.now }
    ensures { (result ≤ length items.now)
        × ((s : Store) → Reads s area.now → result ≡ tidy.passed s (some key.value) items.now) }
{
    for (i, &p) in items.iter().enumerate() {
        if key < place::least(area, usize::from(p)) {
            return i;
        }
    }
    items.len()
}

// Behind how many tables the round starts: those that the mark has passed, none without a mark.
fn find_start(area: &[u8], items: &[u16], after: Option<Key>) -> usize
    requires { Listed area.now items.now }
    ensures { (result ≤ length items.now)
        × ((s : Store) → Reads s area.now → result ≡ tidy.passed s (the_mark after) items.now) }
{
    let Some(key) = after else {
        return 0;
    };
    count_passed(area, items, key)
}

// The first table of the round that starts behind k tables.
fn pick_first(items: &[u16], k: usize) -> usize
    requires { (0 < length items.now) × (k ≤ length items.now) }
    ensures { result ≡ get_or (drop k items.now ++ take k items.now) 0 0 }
{
    let first = if k < items.len() { items[k] } else { items[0] };
    usize::from(first)
}

// The first table of the round without links goes down; if all have links, the first of the round is merged.
pub fn choose(area: &[u8], cards: &[Row], items: &[u16], after: Option<Key>, n: usize) -> Plan
    requires { Choices area.now cards.now items.now }
    ensures { (s : Store) → OnLevel s n area.now cards.now items.now (the_mark after)
        → result ≡ level_plan s (some n) }
{
    let k = find_start(area, items, after);
    if let Some(p) = due::find_table(area, cards, &items[k..], Wanted::Bare) {
        return Plan::Down(n, p);
    }
    if let Some(p) = due::find_table(area, cards, &items[..k], Wanted::Bare) {
        return Plan::Down(n, p);
    }
    Plan::Merge(n, pick_first(items, k))
}
